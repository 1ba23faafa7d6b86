//! What a head sends of itself, and what that leaves in its row.
//! Frames go as numbers; `Sent` says why.
#![tactic(auto)]

ghost use Rattle.std.specs.Prelude.{◌≡◌, ◌+◌, ◌%◌, ◌^◌, ◌<◌, not, ◌&&◌, slice_set};
ghost use Rattle.protocol.specs.Record.{reading};
ghost use Rattle.protocol.specs.Step.{vote, adjust, may_lead, lead, may_adjust, propose, has_mark};
ghost use Rattle.head_row.specs.Promises.{Reads, Acts};
ghost use Rattle.head_frames.specs.Drops.{dropped_below};

use head_median::{starts_held, vote_median, votes_held};
use head_open::is_undecided;
use head_row::{Sent, head_index, no_frame, reading_if};
use protocol::{HeadRow, Mark, Marks, PhaseRow};

#[tactic(auto, using(crate::proofs::Drops::dropped_next), unfolding(crate::specs::Drops::dropped_below))]
// "changing candidate drops the others": a loop without branches, which takes several senders at once.
fn drop_others(readings: &mut [u32; 16], latest: &[u32; 16], name: u32)
    ensures { readings.new ≡ dropped_below name latest.now readings.old 16 }
{
    for p in 0..16 {
        readings[p] = reading_if(latest[p] == name, readings[p]);
    }
}

// A head's own choice, which it sends: back comes the frame's serial. It is h's own latest frame.
fn choose(phase: &mut PhaseRow, own: usize, name: u32) -> u32
    requires { own < 16 }
    ensures serial { result ≡ phase.old.sent }
    ensures after { phase.new ≡ record phase.old { choice = name; sent = (phase.old.sent + 1) % 2 ^ 32; latest = slice_set phase.old.latest own name } }
{
    let serial = phase.sent;
    phase.choice = name;
    phase.sent = serial.wrapping_add(1);
    phase.latest[own] = name;
    serial
}

/// "A vote carries the candidate and h's own start reading of it, or the mark "none"; it is also h's own vote reading".
pub fn vote(row: &mut HeadRow, c: u32) -> Sent
    ensures { c < 16 → Acts (vote c) row.old row.new result }
{
    let name = c.wrapping_add(1);
    let own = head_index(row.own);
    let x = row.start_readings[head_index(c)];
    drop_others(&mut row.vote_readings, &row.votes.latest, name);
    row.vote_readings[own] = x;
    row.marks = row.marks.with(Mark::Candidate);
    let serial = choose(&mut row.votes, own, name);
    Sent {
        kind: 5,
        serial,
        choice: c,
        carried: x,
    }
}

/// An adjust carries adjuster and adjustment.
pub fn adjust(row: &mut HeadRow, a: u32, x: u32) -> Sent
    ensures { a < 16 → Acts (adjust a (reading x)) row.old row.new result }
{
    let own = head_index(row.own);
    let serial = choose(&mut row.adjusts, own, a.wrapping_add(1));
    row.adjustment = x;
    Sent {
        kind: 8,
        serial,
        choice: a,
        carried: x,
    }
}

// "once the turn is taken, with the vote open, no candidate"
fn waits(marks: Marks) -> bool
    ensures { result ≡ (has_mark marks.0 4 && (not (has_mark marks.0 8) && not (has_mark marks.0 64))) }
{
    marks.has(Mark::VoteTurn) && is_undecided(marks)
}

// "and at least f + 1 start readings held"
fn may_lead(row: &HeadRow) -> bool
    ensures { Reads may_lead row.now result }
{
    waits(row.marks) && row.faulty < starts_held(row)
}

/// "After 2 and 4: .. h becomes its own candidate and votes"
pub fn lead(row: &mut HeadRow) -> Sent
    ensures { Acts lead row.old row.new result }
{
    if may_lead(row) {
        let own = row.own;
        return vote(row, own);
    }
    no_frame()
}

// 7: "With a candidate, no adjuster and at least one vote reading"
fn may_adjust(row: &HeadRow) -> bool
    ensures { Reads may_adjust row.now result }
{
    row.votes.choice != 0 && (row.adjusts.choice == 0 && 1 <= votes_held(row))
}

/// "h becomes adjuster, takes the median of the vote readings as adjustment and sends both"
pub fn propose(row: &mut HeadRow) -> Sent
    ensures { Acts propose row.old row.new result }
{
    if may_adjust(row) {
        let own = row.own;
        let x = vote_median(row);
        return adjust(row, own, x);
    }
    no_frame()
}
