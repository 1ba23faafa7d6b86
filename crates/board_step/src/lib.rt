//! A board keeps one head's record and changes it in place. `board_c` has the same for C.
#![tactic(auto)]

ghost use Rattle.std.specs.Prelude.{◌≡◌};
ghost use Rattle.protocol.specs.Step.{step};
ghost use Rattle.board_step.specs.Board.{answer_of};

use head_by_value::step;
use protocol::{Cause, Frame, HeadRecord, Input};

/// The board's step: the record becomes the one after the action, and back comes the frame to send, if any. A refused action
/// leaves the record as it was.
pub fn board_step(r: &mut HeadRecord, i: Input) -> Result<Option<Frame>, Cause>
    ensures after { r.new ≡ (step r.old i).after }
    ensures answer { result ≡ answer_of (step r.old i) }
{
    let s = step(*r, i);
    *r = s.after;
    s.verdict?;
    Ok(s.frame)
}
