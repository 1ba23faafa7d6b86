//! How a round ended for a head, read off its row.
#![tactic(auto)]

ghost use Rattle.head_result.specs.Result.{IsResult};

use head_row::head_index;
use protocol::{HeadRow, Mark};

/// Outcome, candidate, adjuster, adjustment and start reading, the last four 0 unless the outcome is 2.
pub fn result_numbers(row: &HeadRow) -> [u32; 5]
    ensures { IsResult row.now result }
{
    if !row.marks.has(Mark::AdjustClose) {
        return [0, 0, 0, 0, 0];
    }
    let c = row.votes.choice;
    let a = row.adjusts.choice;
    if c == 0 {
        return [1, 0, 0, 0, 0];
    }
    if a == 0 {
        return [1, 0, 0, 0, 0];
    }
    let start = row.start_readings[head_index(c - 1)];
    if start == 0 {
        return [1, 0, 0, 0, 0];
    }
    [2, c - 1, a - 1, row.adjustment, start - 1]
}
