// The runs that a block table shows, and the totals of a shift report.
#![tactic(auto)]

ghost use Rattle.std.specs.Prelude.{false, List, ◌++◌, ◌≡◌, ℕ, ◌+◌, ◌<◌, ◌≤◌, max, leb, ltb, length, get_or};
ghost use Rattle.rules.specs.Counting.{any_in};
ghost use Rattle.report.specs.Runs.{longest_run};
ghost use Rattle.report.specs.Report.{answers_in, sums_in, images_taken, is_full, one_more_at, with_figures, with_image};
ghost use Rattle.report.specs.Room.{CountsLow, SumsLow, Modest};
ghost use Rattle.report.specs.Table.{owned_by, RunsCounted, free_end, Surveyed};

// How far a pass over a block table is: the owner of the last block passed, where its run started, and the longest free run before that one.
#[derive(Clone, Copy)]
struct Survey {
    owner: u16,
    start: usize,
    longest: usize,
}

// One more at place `i`, if the table has it.
fn count_at(starts: &mut [u16], i: usize)
    requires { get_or starts.old i 0 < 65535 }
    ensures { starts.new ≡ one_more_at starts.old i }
{
    if i < starts.len() {
        starts[i] += 1;
    }
}

// The longest free run, where one of this length has ended whose owner was this one.
fn longer(longest: usize, owner: u16, len: usize) -> usize
    ensures { result ≡ max longest (free_end owner len) }
{
    if owner != 1 {
        return longest;
    }
    longest.max(len)
}

// Passes block `x`: where its owner is another than that of the block before, a run has ended and one of this owner starts.
fn pass_block(table: &[u16], x: usize, starts: &mut [u16], s: Survey) -> Survey
    requires x_in_bounds { (x + 1 < length table.now) × (x + 1 < 65535) }
    requires surveyed { Surveyed table.now x s starts.old }
    ensures { Surveyed table.now (x + 1) result starts.new }
{
    let owner = table[x + 1];
    if owner == s.owner {
        return s;
    }
    count_at(starts, owner as usize);
    Survey {
        owner,
        start: x + 1,
        longest: longer(s.longest, s.owner, x + 1 - s.start),
    }
}

// Counts the runs of each owner in the first `n` blocks of a table, and answers the longest run of free ones.
pub fn count_runs(table: &[u16], n: usize, starts: &mut [u16]) -> usize
    requires n_nonzero { (0 < n) × (n ≤ length table.now) × (n ≤ 65535) }
    requires by_index { (i : ℕ) → get_or starts.old i 0 ≡ 0 }
    ensures longest { result ≡ longest_run (owned_by table.now 1) n }
    ensures counted { RunsCounted table.now n starts.new }
{
    let owner = table[0];
    count_at(starts, owner as usize);
    let mut s = Survey {
        owner,
        start: 0,
        longest: 0,
    };
    for x in 0..n - 1 {
        s = pass_block(table, x, starts, s);
    }
    longer(s.longest, s.owner, n - s.start)
}

// Whether 100,000 images have been taken; the sum stays small, since a count that is as large by itself ends it.
fn all_taken(totals: &[u64]) -> bool
    requires { length totals.now ≡ 24 }
    ensures { result ≡ leb 100000 (images_taken totals.now) }
{
    let mut sum: u64 = 0;
    for n in &totals[..18] {
        if 100000 <= *n {
            return true;
        }
        sum += *n;
    }
    100000 <= sum
}

// Whether one of the sums is above 10,000,000,000,000.
fn some_over(totals: &[u64]) -> bool
    requires { length totals.now ≡ 24 }
    ensures { result ≡ any_in (ltb 10000000000000) (sums_in totals.now) }
{
    totals[18..].iter().any(|sum| 10000000000000 < *sum)
}

// 31: no further image is taken.
pub fn is_full(totals: &[u64; 24]) -> bool
    ensures { result ≡ is_full totals.now }
{
    if all_taken(totals) {
        return true;
    }
    some_over(totals)
}

// One image more whose check answered `n`.
fn count_answer(totals: &mut [u64], n: usize)
    requires { (length totals.old ≡ 24) × CountsLow totals.old }
    ensures { totals.new ≡ one_more_at (answers_in totals.old) n ++ sums_in totals.old }
{
    if n < 18 {
        totals[n] += 1;
    }
}

// Adds an accepted image's figures to the sums.
fn add_figures(totals: &mut [u64], figures: &[u64])
    requires totals_len { (length totals.old ≡ 24) × (length figures.now ≡ 6) }
    requires sums_low { SumsLow totals.old × Modest figures.now }
    ensures { totals.new ≡ answers_in totals.old ++ with_figures (sums_in totals.old) figures.now }
{
    for (i, figure) in figures.iter().enumerate() {
        totals[18 + i] += *figure;
    }
}

// The totals with an accepted image more.
pub fn add_accepted(totals: &mut [u64; 24], figures: &[u64; 6])
    requires { (is_full totals.old ≡ false) × Modest figures.now }
    ensures { totals.new ≡ with_image totals.old 0 figures.now }
{
    count_answer(totals, 0);
    add_figures(totals, figures);
}

// The totals with an image more that the check refused.
pub fn add_refused(totals: &mut [u64; 24], n: u32)
    requires { (is_full totals.old ≡ false) × (0 < n) }
    ensures { (figures : List ℕ) → totals.new ≡ with_image totals.old n figures }
{
    count_answer(totals, n as usize);
}
