// Writes a formatted disk of 8 blocks to standard output.
#![tactic(auto)]

use std::io;

fn main(rt: HostRuntime) -> io::Result<()> {
    let mut image = [0u8; 4096];
    let _ = format::format(&mut image, 5, 1, b"bench", 0, 0, 0, 0);
    rt.write_all(&image)
}
