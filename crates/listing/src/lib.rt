// Listings. The definitions of a listing's text and its laws are in specs/ and proofs/; `listing_lines`,
// `listing_table` and `listing_text` write the text, `listing_gather` reads standard input, `listing_io` prints.
#![tactic(auto)]
