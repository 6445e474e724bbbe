// Writes one line about the disk image on standard input; its stored input is exactly 65,536 bytes.
#![tactic(auto)]

use std::io;

fn main(rt: HostRuntime) -> io::Result<()> {
    info_line::run(&rt)
}
