// Lists the SiRad frames of standard input (paper 01, "The listing").
#![tactic(auto)]

use capture::Dialect;

fn main(rt: HostRuntime) {
    let mut block = [0u8; 4096];
    listing_io::list_input(
        b"radarlist",
        &mut rt.stdin(),
        &mut block,
        Dialect::Sirad,
        &mut rt.stdout(),
        &mut rt.stderr(),
    );
}
