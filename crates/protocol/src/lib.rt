//! The types of the protocol: a head's record, what a head is asked and answers, a run sheet's entries, and the causes.
//! The definitions of specs/ speak about these types themselves, so a contract equates a function's result with a definition.
#![tactic(auto)]

ghost use Rattle.std.specs.Prelude.{◌≡◌, ◌+◌, ◌%◌, ◌^◌, ◌<◌, if◌then◌else◌};
ghost use Rattle.protocol.specs.Causes.{cause_number};
ghost use Rattle.protocol.specs.Record.{weight_of};
ghost use Rattle.protocol.specs.Row.{phase_in_row};
ghost use Rattle.protocol.specs.Step.{has_mark};

/// 2²⁸: "Times are microseconds in 28 bits", so each is below this.
pub const TIME_LIMIT: u32 = 268435456;

/// Real time, in microseconds. A type of its own: real time never stands in for a reading.
#[derive(Clone, Copy, Debug, PartialEq, Eq, PartialOrd, Ord, Hash)]
pub struct RealTime(pub u32);

/// What a head's clock shows, in microseconds.
#[derive(Clone, Copy, Debug, PartialEq, Eq, PartialOrd, Ord, Hash)]
pub struct Reading(pub u32);

/// What a record keeps by sender: its last start reading, its vote reading, the vote and adjust serials last taken from it,
/// and whom its latest vote and its latest adjust name.
#[derive(Clone, Copy)]
pub struct Sender {
    pub start: Option<Reading>,
    pub vote: Option<Reading>,
    pub voted: Option<u8>,
    pub adjusted: Option<u8>,
    pub candidate: Option<u8>,
    pub adjuster: Option<u8>,
}

/// The two phases of a round.
#[derive(Clone, Copy, Debug, PartialEq, Eq, Hash)]
pub enum Kind {
    Votes,
    Adjusts,
}

/// One phase of a round at one head. For votes the choice is the candidate, for adjusts the adjuster;
/// sent counts the head's own votes or adjusts, which are the serials of those frames; early marks a phase closed early.
#[derive(Clone, Copy)]
pub struct Phase {
    pub turn: bool,
    pub closed: bool,
    pub early: bool,
    pub choice: Option<u8>,
    pub sent: u8,
}

/// A head's record. own is its number, last its last reading, started the mark "start sent".
#[derive(Clone, Copy)]
pub struct HeadRecord {
    pub n: u8,
    pub f: u8,
    pub own: u8,
    pub last: Reading,
    pub started: bool,
    pub confirmed: bool,
    pub vote: Phase,
    pub adjust: Phase,
    pub adjustment: Reading,
    pub senders: [Sender; 16],
}

/// A mark of a head's record. A row has one more than a record: whether there is a candidate.
#[derive(Clone, Copy, Debug, PartialEq, Eq, Hash)]
pub enum Mark {
    StartSent,
    Confirmed,
    VoteTurn,
    VoteClose,
    AdjustTurn,
    AdjustClose,
    Candidate,
}

impl Mark {
    /// Its part in the number that stands for a row's marks.
    pub fn weight(self) -> u32
        ensures value { result ≡ weight_of self }
        ensures positive { 0 < result }
    {
        match self {
            Mark::StartSent => 1,
            Mark::Confirmed => 2,
            Mark::VoteTurn => 4,
            Mark::VoteClose => 8,
            Mark::AdjustTurn => 16,
            Mark::AdjustClose => 32,
            Mark::Candidate => 64,
        }
    }
}

/// A head's marks as one number, the sum of their weights.
#[repr(C)]
#[derive(Clone, Copy)]
pub struct Marks(pub u32);

impl Marks {
    pub fn has(self, mark: Mark) -> bool
        ensures { result ≡ has_mark self.0 (weight_of mark) }
    {
        self.0 / mark.weight() % 2 == 1
    }

    /// The marks with one more, if it is not among them.
    pub fn with(self, mark: Mark) -> Marks
        ensures { result.0 ≡ (if has_mark self.0 (weight_of mark) then self.0 else (self.0 + weight_of mark) % 2 ^ 32) }
    {
        if self.has(mark) {
            self
        } else {
            Marks(self.0.wrapping_add(mark.weight()))
        }
    }
}

/// One phase of a round, as a row has it. What may be none is 0 for none, else one more than itself: the choice, and all that is
/// kept by sender. early is 1 if the phase was closed early, else 0; latest is whom a sender's latest frame names. These are numbers
/// and no enums, since any bits that C lends have to be a value.
#[repr(C)]
#[derive(Clone, Copy)]
pub struct PhaseRow {
    pub choice: u32,
    pub sent: u32,
    pub early: u32,
    pub serials: [u32; 16],
    pub latest: [u32; 16],
}

/// A head's record in numbers, in the memory that a board lends: row_of (specs/Row.antt) says which stands for what. The spare
/// ones stand for nothing.
#[repr(C)]
#[derive(Clone, Copy)]
pub struct HeadRow {
    pub last: u32,
    pub marks: Marks,
    pub adjustment: u32,
    pub heads: u32,
    pub faulty: u32,
    pub own: u32,
    pub spare: [u32; 4],
    pub start_readings: [u32; 16],
    pub vote_readings: [u32; 16],
    pub votes: PhaseRow,
    pub adjusts: PhaseRow,
}

impl HeadRow {
    pub fn phase(&self, kind: Kind) -> &PhaseRow
        ensures { result.now ≡ phase_in_row kind self.now }
    {
        match kind {
            Kind::Votes => &self.votes,
            Kind::Adjusts => &self.adjusts,
        }
    }
}

/// The ten actions, in the order of their numbers. A delivered vote or adjust has its sender, its serial, and what it carries.
#[derive(Clone, Copy)]
pub enum Action {
    Look,
    StartSent,
    StartDelivered(u8),
    StartConfirmed,
    VoteTurn,
    VoteDelivered(u8, u8, u8, Option<Reading>),
    VoteClose,
    AdjustTurn,
    AdjustDelivered(u8, u8, u8, Reading),
    AdjustClose,
}

/// A frame to send. A vote or adjust has its serial and what it carries.
#[derive(Clone, Copy, Debug, PartialEq, Eq, Hash)]
pub enum Frame {
    Start,
    Vote(u8, u8, Option<Reading>),
    Adjust(u8, u8, Reading),
}

/// The causes to turn back a sheet, an action or a counter, in the order of their numbers, 1 to 11; then those of document 02.
#[derive(Clone, Copy, Debug, PartialEq, Eq, Hash)]
pub enum Cause {
    TooManyWords,
    BadLength,
    BadFirstWord,
    BadSecondWord,
    ShortBuffer,
    BadEntry,
    TimeFell,
    ReadingFell,
    ActionClosed,
    BadRecord,
    CounterTooFar,
    BadField,
    TimeTooFar,
}

// A cause's number in document 01's table, to which document 02 adds.
impl From<Cause> for u32 {
    ghost from_gives = { λ c x. x ≡ cause_number c };

    fn from(c: Cause) -> u32 {
        match c {
            Cause::TooManyWords => 1,
            Cause::BadLength => 2,
            Cause::BadFirstWord => 3,
            Cause::BadSecondWord => 4,
            Cause::ShortBuffer => 5,
            Cause::BadEntry => 6,
            Cause::TimeFell => 7,
            Cause::ReadingFell => 8,
            Cause::ActionClosed => 9,
            Cause::BadRecord => 10,
            Cause::CounterTooFar => 11,
            Cause::BadField => 12,
            Cause::TimeTooFar => 13,
        }
    }
}

/// An action's answer: the record after it and the frame to send. A refusal has the record as it was, and no frame.
#[derive(Clone, Copy)]
pub struct Stepped {
    pub verdict: Result<(), Cause>,
    pub after: HeadRecord,
    pub frame: Option<Frame>,
}

/// The numbers that a caller gives for one head, none of them tested yet. choice and carried are what the frame
/// carries: candidate and start reading, or adjuster and adjustment; none is the mark "none" in place of the reading. The action is
/// a number and none a flag beside it, as the interface in C has them: `input_fits` is asked of numbers that stand for nothing, too.
#[derive(Clone, Copy)]
pub struct Input {
    pub action: u32,
    pub reading: u32,
    pub sender: u32,
    pub serial: u32,
    pub choice: u32,
    pub carried: u32,
    pub none: bool,
}

/// What a run sheet's first two words say. correct has one bit per correct head.
#[derive(Clone, Copy, Debug, PartialEq, Eq, Hash)]
pub struct Setting {
    pub n: u8,
    pub f: u8,
    pub correct: u16,
    pub drift: u16,
    pub tightness: u16,
}

/// One entry of a run sheet. Its action is a number: a sheet that is refused may have any of sixteen, and the premises are said of
/// these numbers (specs/Premises.antt).
#[derive(Clone, Copy, Debug, PartialEq, Eq, Hash)]
pub struct Entry {
    pub time: RealTime,
    pub reading: Reading,
    pub head: u8,
    pub action: u8,
    pub sender: u8,
    pub serial: u8,
}

/// Why a sheet is turned back, and at which of its words.
#[derive(Clone, Copy, Debug, PartialEq, Eq, Hash)]
pub struct Refusal {
    pub cause: Cause,
    pub place: usize,
}

/// A replay's answer and the judge's, of the same sheet: of the judge the first broken premise, if any.
#[derive(Clone, Copy)]
pub struct Report {
    pub replayed: Result<(), Refusal>,
    pub judged: Result<Option<u8>, Refusal>,
}
