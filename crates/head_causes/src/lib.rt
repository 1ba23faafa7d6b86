//! Causes 10, 6, 8 and 9 of an action at one head, by its row.
#![tactic(auto)]

ghost use Rattle.std.specs.Prelude.{◌≡◌, ◌&&◌, ◌||◌, eqb};
ghost use Rattle.protocol.specs.Words.{has_serial};
ghost use Rattle.protocol.specs.Step.{closed_by};
ghost use Rattle.protocol.specs.Board.{row_step};

use head_input::input_fits;
use head_open::{closed_by, is_spent};
use head_ranges::row_in_range;
use protocol::{Cause, HeadRow, Input, Marks};

// Whether an action is closed to head own by its marks; "Closed if sender is h". The action is a number, as `Input` has it.
fn is_closed(i: Input, marks: Marks, own: u32) -> bool
    ensures { result ≡ (has_serial i.action && eqb i.sender own || closed_by i.action marks.0) }
{
    let a = i.action;
    match a {
        5 => i.sender == own,
        8 => i.sender == own,
        _ => closed_by(a, marks),
    }
}

/// "One head: 10, 6, 8, 9"
pub fn row_verdict(row: &HeadRow, i: Input) -> Result<(), Cause>
    ensures { result ≡ (row_step row.now i).verdict }
{
    if !row_in_range(row) {
        return Err(Cause::BadRecord);
    }
    if !input_fits(row.heads, i) {
        return Err(Cause::BadEntry);
    }
    if i.reading < row.last {
        return Err(Cause::ReadingFell);
    }
    if is_spent(i.action, row.votes.early == 1, row.adjusts.early == 1) {
        return Ok(());
    }
    if is_closed(i, row.marks, row.own) {
        return Err(Cause::ActionClosed);
    }
    Ok(())
}
