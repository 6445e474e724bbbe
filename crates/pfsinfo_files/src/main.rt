// Writes one line about the disk image on standard input; its stored input has two files, two directories below the root and free blocks on both sides of last reserved.
#![tactic(auto)]

use std::io;

fn main(rt: HostRuntime) -> io::Result<()> {
    info_line::run(&rt)
}
