//! A phase closes when all have spoken.
#![tactic(auto)]

ghost use Rattle.std.specs.Prelude.{◌≡◌, true, ◌≤◌, eqb, get_or};
ghost use Rattle.protocol.specs.Base.{all_below};
ghost use Rattle.protocol.specs.Record.{votes, adjusts};
ghost use Rattle.protocol.specs.Step.{close_early};
ghost use Rattle.head_row.specs.Promises.{Becomes};
ghost use Rattle.head_early.specs.Parts.{spoken_by, closes};

use head_row::head_count;
use protocol::{HeadRow, Mark, PhaseRow};

// Whether the first n numbers are all the choice. The loop goes down and ends at the first other one: heads speak by rank, so
// the last of them is most often the one that has not spoken yet.
fn all_name(latest: &[u32; 16], n: usize, choice: u32) -> bool
    requires { n ≤ 16 }
    ensures { result ≡ all_below n (λ q. eqb (get_or latest.now q 0) choice) }
{
    for q in (0..n).rev() {
        if latest[q] != choice {
            return false;
        }
    }
    true
}

// Whether a phase has a choice and all n latest frames name it.
fn all_spoken(phase: &PhaseRow, n: u32) -> bool
    ensures { result ≡ spoken_by phase.now n }
{
    phase.choice != 0 && all_name(&phase.latest, head_count(n), phase.choice)
}

// Not one function over `Kind` with `close_adjusts`: it would ask the kind for each of three marks.
fn close_votes(row: &mut HeadRow)
    ensures { Becomes (close_early votes true) row.old row.new }
{
    if row.marks.has(Mark::VoteClose) {
        return;
    }
    if all_spoken(&row.votes, row.heads) {
        row.marks = row.marks.with(Mark::VoteClose);
        row.votes.early = 1;
    }
}

// "never before its vote close"
fn close_adjusts(row: &mut HeadRow)
    ensures { Becomes (close_early adjusts true) row.old row.new }
{
    if !row.marks.has(Mark::VoteClose) {
        return;
    }
    if row.marks.has(Mark::AdjustClose) {
        return;
    }
    if all_spoken(&row.adjusts, row.heads) {
        row.marks = row.marks.with(Mark::AdjustClose);
        row.adjusts.early = 1;
    }
}

/// The test at the end of an action: "tested, vote first".
pub fn close_early(row: &mut HeadRow)
    ensures { Becomes closes row.old row.new }
{
    close_votes(row);
    close_adjusts(row);
}
