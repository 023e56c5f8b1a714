// The front door, begun: which number each entry answers to bad input (demand 1) as named propositions with their proof, and what the
// writers promise as propositions alone. No code.
#![tactic(auto)]
