//! One head's step, in place on its row: what an accepted action does, for a board and for the run of a sheet.
#![tactic(auto)]

mod actions;

ghost use Rattle.std.specs.Prelude.{◌≡◌, ◌+◌, ◌%◌, ◌^◌, if◌then◌else◌};
ghost use Rattle.protocol.specs.declared.HeadRecord.{HeadRecord};
ghost use Rattle.protocol.specs.Record.{reading};
ghost use Rattle.protocol.specs.Step.{with_last, act, taken_as, action_of};
ghost use Rattle.head_row.specs.Promises.{Acts};
ghost use Rattle.head_step.specs.Sized.{InputSized};

use actions::{
    adjust_delivered, adjust_turn, close, start_confirmed, start_delivered, start_sent,
    vote_delivered, vote_turn,
};
use head_row::{Sent, no_frame};
use protocol::{HeadRow, Input, Kind};

// A vote's reading as a row has it. It wraps, where `head_record`'s of a record cuts off at 28 bits: two definitions.
fn reading_plus_1(none: bool, carried: u32) -> u32
    ensures { result ≡ (if none then 0 else (carried + 1) % 2 ^ 32) }
{
    if none { 0 } else { carried.wrapping_add(1) }
}

/// What an accepted action does: "Every accepted action makes its reading the last reading". The match is on the action's
/// number, as `Input` has it; the frame goes as numbers, and `Sent` says why.
pub fn act(row: &mut HeadRow, i: Input) -> Sent
    ensures { InputSized i
        → Acts (λ (r : HeadRecord). act (with_last r (reading i.reading)) (taken_as r (action_of i))) row.old row.new result }
{
    row.last = i.reading;
    let a = i.action;
    match a {
        1 => start_sent(row),
        2 => start_delivered(row, i.sender),
        3 => start_confirmed(row),
        4 => vote_turn(row),
        5 => vote_delivered(
            row,
            i.sender,
            i.serial,
            i.choice,
            reading_plus_1(i.none, i.carried),
        ),
        6 => close(row, Kind::Votes),
        7 => adjust_turn(row),
        8 => adjust_delivered(row, i.sender, i.serial, i.choice, i.carried),
        9 => close(row, Kind::Adjusts),
        _ => no_frame(),
    }
}
