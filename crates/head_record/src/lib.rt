//! A head's record by value and its row: the row of a record, the record that a row in its ranges holds, and a frame from its
//! numbers.
#![tactic(auto, unfolding(protocol::specs::Record::marks_number))]

ghost use Rattle.std.specs.Prelude.{◌≡◌, map, ◌%◌, ◌<◌, ◌≤◌};
ghost use Rattle.protocol.specs.Base.{table};
ghost use Rattle.protocol.specs.Record.{mark_number, marks_number, weight_of};
ghost use Rattle.protocol.specs.Row.{number_plus1, reading_plus1, row_of, phase_in, sender_in};
ghost use Rattle.head_record.specs.Filling.{bare, bare_phase, with_numbers, Completes};
ghost use Rattle.head_record.specs.Bytes.{cut_phase, cut_sender, Holds, StandsFor};

use data_values::{number_in, reading_in};
use head_row::Sent;
use protocol::{
    Frame, HeadRecord, HeadRow, Mark, Marks, Phase, PhaseRow, Reading, Sender, TIME_LIMIT,
};

fn number_plus_1(k: Option<u8>) -> u32
    ensures { result ≡ number_plus1 k }
{
    match k {
        None => 0,
        Some(j) => j as u32 + 1,
    }
}

// A reading beyond 28 bits, which no record in its ranges has, is written as the lowest of them.
fn reading_plus_1(k: Option<Reading>) -> u32
    ensures { result ≡ reading_plus1 k }
{
    match k {
        None => 0,
        Some(x) => {
            if x.0 < TIME_LIMIT {
                x.0 + 1
            } else {
                TIME_LIMIT + 1
            }
        }
    }
}

fn mark_number(b: bool, weight: u32) -> u32
    ensures { (result ≡ mark_number b weight) × (result ≤ weight) }
{
    if b { weight } else { 0 }
}

fn marks_number(r: HeadRecord) -> u32
    ensures { result ≡ marks_number r }
{
    let v = r.vote;
    let choice = v.choice;
    let candidate = choice.is_some();
    mark_number(r.started, Mark::StartSent.weight())
        + mark_number(r.confirmed, Mark::Confirmed.weight())
        + mark_number(r.vote.turn, Mark::VoteTurn.weight())
        + mark_number(r.vote.closed, Mark::VoteClose.weight())
        + mark_number(r.adjust.turn, Mark::AdjustTurn.weight())
        + mark_number(r.adjust.closed, Mark::AdjustClose.weight())
        + mark_number(candidate, Mark::Candidate.weight())
}

fn bare_phase(p: Phase) -> PhaseRow
    ensures { result ≡ bare_phase p }
{
    PhaseRow {
        choice: number_plus_1(p.choice),
        sent: p.sent as u32,
        early: mark_number(p.early, 1),
        serials: [0; 16],
        latest: [0; 16],
    }
}

// The head's own numbers, and nothing kept by sender.
fn bare_row(r: HeadRecord) -> HeadRow
    ensures { result ≡ row_of (bare r) }
{
    HeadRow {
        last: r.last.0,
        marks: Marks(marks_number(r)),
        adjustment: r.adjustment.0,
        heads: r.n as u32,
        faulty: r.f as u32,
        own: r.own as u32,
        spare: [0; 4],
        start_readings: [0; 16],
        vote_readings: [0; 16],
        votes: bare_phase(r.vote),
        adjusts: bare_phase(r.adjust),
    }
}

fn put_sender(row: &mut HeadRow, p: usize, k: Sender)
    requires { p < 16 }
    ensures { row.new ≡ with_numbers row.old p k }
{
    row.start_readings[p] = reading_plus_1(k.start);
    row.vote_readings[p] = reading_plus_1(k.vote);
    row.votes.serials[p] = number_plus_1(k.voted);
    row.adjusts.serials[p] = number_plus_1(k.adjusted);
    row.votes.latest[p] = number_plus_1(k.candidate);
    row.adjusts.latest[p] = number_plus_1(k.adjuster);
}

// What is kept by sender, each number at its index.
fn put_senders(row: &mut HeadRow, senders: [Sender; 16])
    ensures { Completes row.old senders row.new }
{
    for i in 0..16 {
        put_sender(row, i, senders[i]);
    }
}

/// The row of a record.
pub fn row_of(r: HeadRecord) -> HeadRow
    ensures { result ≡ row_of r }
{
    let senders = r.senders;
    let mut row = bare_row(r);
    put_senders(&mut row, senders);
    row
}

// A head number, a count or a serial. In a row in its ranges it has no higher bits.
fn byte(w: u32) -> u8
    ensures { result ≡ w % 256 }
{
    (w % 256) as u8
}

fn sender_in(row: &HeadRow, p: usize) -> Sender
    requires { p < 16 }
    ensures { result ≡ cut_sender (sender_in row.now p) }
{
    let start = reading_in(row.start_readings[p]);
    let vote = reading_in(row.vote_readings[p]);
    let voted = number_in(row.votes.serials[p]);
    let adjusted = number_in(row.adjusts.serials[p]);
    let candidate = number_in(row.votes.latest[p]);
    let adjuster = number_in(row.adjusts.latest[p]);
    Sender {
        start,
        vote,
        voted,
        adjusted,
        candidate,
        adjuster,
    }
}

fn senders_in(row: &HeadRow) -> [Sender; 16]
    ensures { result ≡ map cut_sender (table (sender_in row.now) 0 16) }
{
    let first = sender_in(row, 0);
    let mut l = [first; 16];
    for i in 1..16 {
        l[i] = sender_in(row, i);
    }
    l
}

// A phase, by its marks.
fn phase_in(marks: Marks, phase: &PhaseRow, turn: Mark, closed: Mark) -> Phase
    ensures { result ≡ cut_phase (phase_in marks phase.now (weight_of turn) (weight_of closed)) }
{
    Phase {
        turn: marks.has(turn),
        closed: marks.has(closed),
        early: phase.early == 1,
        choice: number_in(phase.choice),
        sent: byte(phase.sent),
    }
}

/// The record that a row in its ranges holds.
pub fn record_in(row: &HeadRow) -> HeadRecord
    ensures { Holds row.now result }
{
    HeadRecord {
        n: byte(row.heads),
        f: byte(row.faulty),
        own: byte(row.own),
        last: Reading(row.last),
        started: row.marks.has(Mark::StartSent),
        confirmed: row.marks.has(Mark::Confirmed),
        vote: phase_in(row.marks, &row.votes, Mark::VoteTurn, Mark::VoteClose),
        adjust: phase_in(row.marks, &row.adjusts, Mark::AdjustTurn, Mark::AdjustClose),
        adjustment: Reading(row.adjustment),
        senders: senders_in(row),
    }
}

/// The frame that the numbers stand for.
pub fn frame_in(s: Sent) -> Option<Frame>
    ensures { StandsFor s result }
{
    let kind = s.kind;
    match kind {
        2 => Some(Frame::Start),
        5 => Some(Frame::Vote(byte(s.serial), byte(s.choice), reading_in(s.carried))),
        8 => Some(Frame::Adjust(byte(s.serial), byte(s.choice), Reading(s.carried))),
        _ => None,
    }
}
