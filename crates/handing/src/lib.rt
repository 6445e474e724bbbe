// Hands differences out into a lent buffer, six numbers for each.
#![tactic(auto)]

ghost use Rattle.std.specs.Prelude.{◌≡◌, ◌+◌, ◌≤◌, ltb, length};
ghost use Rattle.differences.specs.Differences.{numbers_of};
ghost use Rattle.differences.specs.Handing.{hand_out};
ghost use Rattle.endian.specs.Bytes.{stored};
ghost use Rattle.handing.specs.Differs.{difference_of, handing_with, numbers_both, only_places};

// Two entries of one path that differ: their places, the fields, the first differing byte and how many differ.
#[derive(Clone, Copy)]
pub struct Both {
    pub first: u32,
    pub second: u32,
    pub fields: u32,
    pub byte: u32,
    pub many: u32,
}

// A difference, with the byte place of its entry in each image that has it.
#[derive(Clone, Copy)]
pub enum Differs {
    OnlyFirst(u32),
    OnlySecond(u32),
    Differing(Both),
}

// How many differences are still to be passed, and how many numbers are there so far.
#[derive(Clone, Copy)]
pub struct Handed {
    pub skip: u64,
    pub done: usize,
}

// Whether the buffer has no room for six more numbers.
pub fn has_no_room(out: &[u32], c: Handed) -> bool
    ensures { result ≡ ltb (length out.now) (c.done + 6) }
{
    let len = out.len();
    if len < 6 {
        return true;
    }
    len - 6 < c.done
}

// Stores the six numbers of a difference of that kind from `at` on.
fn put_numbers(out: &mut [u32], at: usize, kind: u32, b: Both)
    requires { at + 6 ≤ length out.old }
    ensures { out.new ≡ stored out.old at (numbers_both kind b) }
{
    out[at] = kind;
    out[at + 1] = b.first;
    out[at + 2] = b.second;
    out[at + 3] = b.fields;
    out[at + 4] = b.byte;
    out[at + 5] = b.many;
}

// The numbers of an entry that only one image has: its place there, and else 0.
fn only(first: u32, second: u32) -> Both
    ensures { result ≡ only_places first second }
{
    Both {
        first,
        second,
        fields: 0,
        byte: 0,
        many: 0,
    }
}

// Stores the six numbers of a difference from `at` on.
fn put_difference(out: &mut [u32], at: usize, d: Differs)
    requires { at + 6 ≤ length out.old }
    ensures { out.new ≡ stored out.old at (numbers_of (difference_of d)) }
{
    match d {
        Differs::OnlyFirst(first) => put_numbers(out, at, 1, only(first, 0)),
        Differs::OnlySecond(second) => put_numbers(out, at, 2, only(0, second)),
        Differs::Differing(b) => put_numbers(out, at, 3, b),
    }
}

// One more difference for the buffer.
pub fn hand_out(out: &mut [u32], c: Handed, d: Differs) -> Handed
    ensures { handing_with out.new result ≡ hand_out (handing_with out.old c) (difference_of d) }
{
    if has_no_room(out, c) {
        return c;
    }
    if c.skip != 0 {
        return Handed {
            skip: c.skip - 1,
            done: c.done,
        };
    }
    put_difference(out, c.done, d);
    Handed {
        skip: 0,
        done: c.done + 6,
    }
}
