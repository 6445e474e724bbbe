// The anodes of a chain one after the other, over the links in a lent table.
#![tactic(auto)]

ghost use Rattle.std.specs.Prelude.{◌≡◌, get_or};
ghost use Rattle.std.specs.Iterator.{YieldsFirstBy, item_count};
ghost use Rattle.rules.specs.Anodes.{limit};
ghost use Rattle.rules.specs.Chains.{chain_of, cut};
ghost use Rattle.links.specs.Links.{follow, anodes_left};

use disk::AnodeNo;
use tables::entry;

// The anodes of a chain that are still to come: the links, the anode before which it ends, the next one, and how many may come.
#[derive(Clone, Copy)]
pub struct Links<'a> {
    nexts: &'a [u16],
    end: u16,
    at: AnodeNo,
    left: usize,
}

impl<'a> Links<'a> {
    // The chain from `head` on, at most 3,444 anodes.
    pub fn along(nexts: &'a [u16], head: AnodeNo) -> Links<'a>
        ensures { anodes_left result ≡ chain_of (λ a. get_or nexts.now a 0) limit head.0 }
    {
        Links {
            nexts,
            end: 0,
            at: head,
            left: 3444,
        }
    }

    // The side of the free list from `head` on, which ends before anode 2, at most 3,444 anodes.
    pub fn side(nexts: &'a [u16], head: AnodeNo) -> Links<'a>
        ensures { anodes_left result ≡ chain_of (cut (λ a. get_or nexts.now a 0)) limit head.0 }
    {
        Links {
            nexts,
            end: 2,
            at: head,
            left: 3444,
        }
    }

    // The anode after `a`, or 0 where the chain ends.
    fn after(&self, a: AnodeNo) -> AnodeNo
        ensures { result.0 ≡ follow self.now a.0 }
    {
        let next = entry(self.nexts, a.0 as usize);
        if next == self.end {
            return AnodeNo(0);
        }
        AnodeNo(next)
    }
}

impl<'a> Iterator for Links<'a> {
    type Item = AnodeNo;

    ghost next_gives = { YieldsFirstBy (λ a. a.0) anodes_left };

    ghost remaining = { item_count anodes_left };

    fn next(&mut self) -> Option<AnodeNo> {
        if self.left == 0 {
            return None;
        }
        let a = self.at;
        if a.0 == 0 {
            return None;
        }
        self.at = self.after(a);
        self.left -= 1;
        Some(a)
    }
}
