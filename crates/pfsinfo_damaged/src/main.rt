// Writes one line about the disk image on standard input; its stored input is a damaged disk, refused by 7.
#![tactic(auto)]

use std::io;

fn main(rt: HostRuntime) -> io::Result<()> {
    info_line::run(&rt)
}
