// The shift report. It asks nothing of its caller; its contract settles the answer, the image, both tables, the five numbers and the totals for every input.
#![tactic(auto)]

ghost use Rattle.std.specs.Prelude.{false, [], ◌≡◌, take};
ghost use Rattle.disk.specs.Refusals.{answer_of};
ghost use Rattle.rules.specs.Anodes.{anodes_of};
ghost use Rattle.rules.specs.Calls.{outcome_of};
ghost use Rattle.report.specs.Figures.{figures_of};
ghost use Rattle.report.specs.Report.{is_full, with_image, reported, report_outcome};
ghost use Rattle.report_calls.specs.Reportable.{Reportable};

use disk::Refusal;
use file_sums::sum_files;
use fsck::{DiskTables, Tally};
use header::disk_size;
use report::{add_accepted, add_refused, count_runs, is_full};

// The figures of an accepted image: one pass over the block table, and one over the entries.
fn count_figures(
    image: &[u8],
    table: &[u16],
    firsts: &[u16],
    nexts: &[u16],
    queue: &[u16],
    t: Tally,
    figures: &mut [u64; 6],
)
    requires { Reportable image.now table.now firsts.now nexts.now queue.now t }
    ensures { figures.new ≡ figures_of image.now (anodes_of image.now) }
{
    let n = disk_size(image);
    let mut starts = [0u16; 3444];
    let longest = count_runs(table, n, &mut starts);
    let sums = sum_files(image, firsts, nexts, queue, &starts, t.dirs);
    *figures = [
        t.free as u64,
        t.files as u64,
        t.dirs as u64,
        longest as u64,
        sums.split as u64,
        sums.bytes,
    ];
}

// Takes an accepted image: its five numbers, and the totals with it.
fn take_accepted(
    image: &[u8],
    table: &[u16],
    firsts: &[u16],
    nexts: &[u16],
    queue: &[u16],
    t: Tally,
    totals: &mut [u64; 24],
    disk: &mut [u64; 5],
)
    requires reportable { Reportable image.now table.now firsts.now nexts.now queue.now t }
    requires totals_value { is_full totals.old ≡ false }
    ensures five { disk.new ≡ take 5 (figures_of image.now (anodes_of image.now)) }
    ensures added { totals.new ≡ with_image totals.old 0 (figures_of image.now (anodes_of image.now)) }
{
    let mut figures = [0u64; 6];
    count_figures(image, table, firsts, nexts, queue, t, &mut figures);
    add_accepted(totals, &figures);
    *disk = [figures[0], figures[1], figures[2], figures[3], figures[4]];
}

// One image fed to the totals: refused before any check if they are full, then nothing changes; else the check, this disk's five numbers and the totals with it.
pub fn report(
    image: &[u8],
    blocks: &mut [u16],
    anodes: &mut [u16],
    totals: &mut [u64; 24],
    disk: &mut [u64; 5],
) -> Result<(), Refusal>
    ensures { reported (outcome_of (answer_of result) image.now blocks.new anodes.new disk.new []) totals.new ≡ report_outcome image.now blocks.old anodes.old totals.old disk.old }
{
    if is_full(totals) {
        return Err(Refusal::ReportFull);
    }
    let mut loaded = DiskTables::empty();
    let checked = loaded.open(image, blocks, anodes);
    match checked {
        Ok(t) => {
            take_accepted(
                image,
                blocks,
                &loaded.firsts,
                &loaded.nexts,
                &loaded.queue,
                t,
                totals,
                disk,
            );
            Ok(())
        }
        Err(refusal) => {
            add_refused(totals, u32::from(refusal));
            *disk = [0u64; 5];
            Err(refusal)
        }
    }
}
