//! A head's marks in one number, as its row has them, and when they close an action; when an action is spent.
//! Actions go by their numbers: `closed_by` and `is_spent` (specs/Step.antt of protocol) are defined of any number.
#![tactic(auto, unfolding(protocol::specs::Step::closed_by, protocol::specs::Step::is_spent))]

ghost use Rattle.std.specs.Prelude.{◌≡◌, ◌+◌, ◌%◌, ◌^◌, ◌<◌, not, ◌&&◌, if◌then◌else◌};
ghost use Rattle.protocol.specs.Step.{has_mark, closed_by, is_spent};

use protocol::{Mark, Marks};

// The next two are for callers of the library whose marks are a plain number, with any weight: `Marks::has` and
// `Marks::with` (crate protocol), which the heads' code takes, know the seven weights of a row alone.

/// Whether the mark of this weight is among the marks.
pub fn has_mark(marks: u32, weight: u32) -> bool
    requires { 0 < weight }
    ensures { result ≡ has_mark marks weight }
{
    marks / weight % 2 == 1
}

/// The marks with one more, if it is not among them.
pub fn with_mark(marks: u32, weight: u32) -> u32
    requires { 0 < weight }
    ensures { result ≡ (if has_mark marks weight then marks else (marks + weight) % 2 ^ 32) }
{
    if has_mark(marks, weight) {
        marks
    } else {
        marks.wrapping_add(weight)
    }
}

/// With the vote open, no candidate.
pub fn is_undecided(marks: Marks) -> bool
    ensures { result ≡ (not (has_mark marks.0 8) && not (has_mark marks.0 64)) }
{
    !marks.has(Mark::VoteClose) && !marks.has(Mark::Candidate)
}

/// Whether an action is closed by the marks.
pub fn closed_by(a: u32, m: Marks) -> bool
    ensures { result ≡ closed_by a m.0 }
{
    match a {
        1 => m.has(Mark::StartSent) || m.has(Mark::Candidate) || m.has(Mark::VoteClose),
        3 => !m.has(Mark::StartSent) || m.has(Mark::Confirmed),
        4 => !m.has(Mark::Confirmed) || m.has(Mark::VoteTurn),
        6 => m.has(Mark::VoteClose),
        7 => !m.has(Mark::VoteClose) || m.has(Mark::AdjustTurn) || m.has(Mark::AdjustClose),
        9 => !m.has(Mark::VoteClose) || m.has(Mark::AdjustClose),
        _ => false,
    }
}

/// Whether an action is spent: accepted and without effect, since its phase was closed early. The two tell which phases were.
pub fn is_spent(a: u32, vote: bool, adjust: bool) -> bool
    ensures { result ≡ is_spent a vote adjust }
{
    match a {
        6 => vote,
        7 | 9 => adjust,
        _ => false,
    }
}
