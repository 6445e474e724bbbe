// One line about the disk image on standard input.
#![tactic(auto)]

ghost use Rattle.std.specs.Prelude.{◌≤◌, IfOk, length};

use fsck::check_disk;
use header::disk_size;
use std::io;
use std::io::Read;

// Writes a word and a number.
fn print_field(rt: &impl Print, word: &[u8], n: u64) -> io::Result<()> {
    rt.write_all(word)?;
    rt.print(n)
}

// Writes size, free blocks, files and directories of an accepted image, or the refusal's number.
fn print_line(rt: &impl Print, image: &[u8]) -> io::Result<()> {
    let mut blocks = [0u16; 128];
    let mut anodes = [0u16; 3444];
    match check_disk(image, &mut blocks, &mut anodes) {
        Ok(t) => {
            print_field(rt, b"PFS0 ", disk_size(image) as u64)?;
            print_field(rt, b" free ", t.free as u64)?;
            print_field(rt, b" files ", t.files as u64)?;
            print_field(rt, b" dirs ", t.dirs as u64)?;
        }
        Err(refusal) => {
            print_field(rt, b"REFUSED ", u32::from(refusal) as u64)?;
        }
    }
    rt.write_all(b"\n")
}

// Reads until the buffer is full or the input ends, since one read may give less, and returns how many bytes came.
fn read_full(input: &mut impl Read, buffer: &mut [u8]) -> io::Result<usize>
    ensures { IfOk result (λ n. n ≤ length buffer.new) }
{
    let mut done = 0;
    while done < buffer.len() {
        let n = input.read(&mut buffer[done..])?;
        if n == 0 {
            break;
        }
        done += n;
    }
    Ok(done)
}

// Reads at most 65,536 bytes and writes the line; more input is too large.
pub fn run(rt: &(impl Input + Print)) -> io::Result<()> {
    let mut input = rt.reader();
    let mut space = [0u8; 65536];
    let n = read_full(&mut input, &mut space)?;
    let mut one = [0u8; 1];
    if read_full(&mut input, &mut one)? != 0 {
        return rt.write_all(b"TOO LARGE\n");
    }
    print_line(rt, &space[..n])
}
