//! One head of a bench: its step, the reading of its counter, and how a round ends for it.
#![tactic(auto)]

mod counter;
mod ending;

ghost use Rattle.std.specs.Prelude.{◌≡◌};
ghost use Rattle.protocol.specs.Step.{step};

pub use counter::counter_reading;
pub use ending::{chosen_start, outcome};
use head_causes::row_verdict;
use head_record::{frame_in, record_in, row_of};
use head_step::act;
use protocol::{HeadRecord, Input, Stepped};

/// The step of one head, on the record's row: causes 10, 6, 8 and 9 in this order, then what the action does.
pub fn step(r: HeadRecord, i: Input) -> Stepped
    ensures { result ≡ step r i }
{
    let mut row = row_of(r);
    if let Err(c) = row_verdict(&row, i) {
        return Stepped {
            verdict: Err(c),
            after: r,
            frame: None,
        };
    }
    let sent = act(&mut row, i);
    Stepped {
        verdict: Ok(()),
        after: record_in(&row),
        frame: frame_in(sent),
    }
}
