//! A head's row of numbers before its first action, and single numbers of it.
#![tactic(auto, unfolding(protocol::specs::Record::fresh, protocol::specs::Record::marks_number))]

ghost use Rattle.std.specs.Prelude.{◌≡◌, cond, ◌%◌, min};
ghost use Rattle.protocol.specs.Types.{NoFrame};
ghost use Rattle.protocol.specs.Record.{fresh};
ghost use Rattle.protocol.specs.Row.{row_of};
ghost use Rattle.head_row.specs.Sent.{sent_of};

use protocol::{HeadRow, Marks, PhaseRow};

/// A frame in numbers, as a row has them. kind is the action that delivers it, 0 for no frame; carried is a vote's reading, one
/// more than itself, 0 for the mark "none", or an adjust's adjustment. No Option<Frame>: `Acts` is promised of records with counts and
/// start readings that a Frame cannot hold; and returned so, an action took up to 94 instructions more.
#[derive(Clone, Copy)]
pub struct Sent {
    pub kind: u32,
    pub serial: u32,
    pub choice: u32,
    pub carried: u32,
}

const NO_PHASE: PhaseRow = PhaseRow {
    choice: 0,
    sent: 0,
    early: 0,
    serials: [0; 16],
    latest: [0; 16],
};

/// The row of a head's fresh record.
pub fn fresh_row(n: u32, f: u32, own: u32) -> HeadRow
    ensures { result ≡ row_of (fresh n f own) }
{
    HeadRow {
        last: 0,
        marks: Marks(0),
        adjustment: 0,
        heads: n,
        faulty: f,
        own,
        spare: [0; 4],
        start_readings: [0; 16],
        vote_readings: [0; 16],
        votes: NO_PHASE,
        adjusts: NO_PHASE,
    }
}

/// How many heads a row is of: one in its ranges has no n above 16.
pub fn head_count(n: u32) -> usize
    ensures { result ≡ min n 16 }
{
    (n as usize).min(16)
}

/// The index of head p among sixteen numbers.
pub fn head_index(p: u32) -> usize
    ensures { result ≡ p % 16 }
{
    (p % 16) as usize
}

/// A reading as the row has it, if it is kept.
pub fn reading_if(kept: bool, x: u32) -> u32
    ensures { result ≡ cond kept x 0 }
{
    if kept { x } else { 0 }
}

/// No frame to send, in numbers.
pub fn no_frame() -> Sent
    ensures { result ≡ sent_of NoFrame }
{
    Sent {
        kind: 0,
        serial: 0,
        choice: 0,
        carried: 0,
    }
}
