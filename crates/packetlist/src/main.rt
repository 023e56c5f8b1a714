// Lists the mmWave packets of standard input (paper 01, "The listing").
#![tactic(auto)]

use capture::Dialect;
use mmwave::PacketDialect;

fn main(rt: HostRuntime) {
    let mut block = [0u8; 4096];
    listing_io::list_input(
        b"packetlist",
        &mut rt.stdin(),
        &mut block,
        Dialect::Packets(PacketDialect::MmWave),
        &mut rt.stdout(),
        &mut rt.stderr(),
    );
}
