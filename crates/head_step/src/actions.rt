// What each of the ten actions does to a head's row, its reading being the last reading already, and the test at its end.
ghost use Rattle.protocol.specs.declared.Reading.{Reading};
ghost use Rattle.std.specs.Prelude.{◌≡◌, ◌+◌, ◌%◌, ◌^◌, ◌<◌, ◌||◌, ◌==◌, nat_lt, get_or, slice_set, Option};
ghost use Rattle.protocol.specs.declared.HeadRecord.{HeadRecord};
ghost use Rattle.protocol.specs.declared.Action.TheVariants.{StartSent, StartDelivered, StartConfirmed, VoteTurn, VoteDelivered};
ghost use Rattle.protocol.specs.declared.Action.TheVariants.{AdjustTurn, AdjustDelivered};
ghost use Rattle.protocol.specs.Record.{reading, reading_or0, weight_of};
ghost use Rattle.protocol.specs.Step.{act, taken_as};
ghost use Rattle.protocol.specs.Row.{reading_plus1};
ghost use Rattle.head_row.specs.Promises.{Acts};
ghost use Rattle.head_step.specs.Parts.{close_of, close_weight, take_vote, take_adjust};

use head_early::close_early;
use head_frames::{adjust, lead, propose, vote};
use head_open::is_undecided;
use head_row::{Sent, head_index, no_frame, reading_if};
use protocol::{HeadRow, Kind, Mark, PhaseRow};

pub fn start_sent(row: &mut HeadRow) -> Sent
    ensures { Acts (λ (r : HeadRecord). act r StartSent) row.old row.new result }
{
    row.marks = row.marks.with(Mark::StartSent);
    close_early(row);
    Sent {
        kind: 2,
        serial: 0,
        choice: 0,
        carried: 0,
    }
}

pub fn start_delivered(row: &mut HeadRow, p: u32) -> Sent
    ensures { p < 16 → Acts (λ (r : HeadRecord). act r (StartDelivered p)) row.old row.new result }
{
    if row.marks.has(Mark::AdjustClose) {
        return no_frame();
    }
    row.start_readings[head_index(p)] = row.last.wrapping_add(1);
    if is_undecided(row.marks) {
        // With the vote open and no candidate nothing can close, unless the head now leads.
        let s = lead(row);
        if s.kind != 0 {
            close_early(row);
        }
        return s;
    }
    close_early(row);
    no_frame()
}

pub fn start_confirmed(row: &mut HeadRow) -> Sent
    ensures { Acts (λ (r : HeadRecord). act r StartConfirmed) row.old row.new result }
{
    row.marks = row.marks.with(Mark::Confirmed);
    close_early(row);
    no_frame()
}

pub fn vote_turn(row: &mut HeadRow) -> Sent
    ensures { Acts (λ (r : HeadRecord). act r VoteTurn) row.old row.new result }
{
    row.marks = row.marks.with(Mark::VoteTurn);
    let s = lead(row);
    close_early(row);
    s
}

// 5: "No effect after the vote close or if the serial isn't above the last taken from that sender".
fn passed_over(phase: &PhaseRow, closed: bool, p: usize, serial: u32) -> bool
    requires { p < 16 }
    ensures { result ≡ (closed || nat_lt serial (get_or phase.now.serials p 0)) }
{
    closed || serial < phase.serials[p]
}

// What a phase keeps of a frame taken from sender p: its serial and whom it names.
fn keep(phase: &mut PhaseRow, p: usize, serial: u32, name: u32)
    requires { p < 16 }
    ensures { phase.new ≡ record phase.old { serials = slice_set phase.old.serials p ((serial + 1) % 2 ^ 32); latest = slice_set phase.old.latest p name } }
{
    phase.serials[p] = serial.wrapping_add(1);
    phase.latest[p] = name;
}

// 5: "with no candidate, or a carried one of higher rank (lower number)"; held is as the row has it.
fn outranks(c: u32, held: u32) -> bool
    ensures { result ≡ (held == 0 || nat_lt ((c + 1) % 2 ^ 32) held) }
{
    held == 0 || c.wrapping_add(1) < held
}

// Whether the head's candidate is then the one that a vote names; name and held are that one and the head's as the row has them.
fn names_candidate(adopts: bool, name: u32, held: u32) -> bool
    ensures { result ≡ (adopts || name == held) }
{
    adopts || name == held
}

// "Otherwise the carried reading (or none) becomes the sender's vote reading; .. h adopts it and votes"; it is the sender's latest vote.
// "a vote taken that names another candidate leaves its sender with none".
fn take_vote(row: &mut HeadRow, p: u32, serial: u32, c: u32, x: u32) -> Sent
    ensures { p < 16 → serial < 16 → c < 16 → (y : Option Reading) → x ≡ reading_plus1 y → reading_or0 y < 2 ^ 28
        → Acts (take_vote p serial c y) row.old row.new result }
{
    let q = head_index(p);
    let name = c.wrapping_add(1);
    let held = row.votes.choice;
    let adopts = outranks(c, held);
    row.vote_readings[q] = reading_if(names_candidate(adopts, name, held), x);
    keep(&mut row.votes, q, serial, name);
    if adopts {
        return vote(row, c);
    }
    no_frame()
}

pub fn vote_delivered(row: &mut HeadRow, p: u32, serial: u32, c: u32, x: u32) -> Sent
    ensures { p < 16 → serial < 16 → c < 16 → (y : Option Reading) → x ≡ reading_plus1 y → reading_or0 y < 2 ^ 28
        → Acts (λ (r : HeadRecord). act r (VoteDelivered p serial c y)) row.old row.new result }
{
    if passed_over(
        &row.votes,
        row.marks.has(Mark::VoteClose),
        head_index(p),
        serial,
    ) {
        return no_frame();
    }
    let s = take_vote(row, p, serial, c, x);
    close_early(row);
    s
}

// A phase's close mark.
fn close_mark(kind: Kind) -> Mark
    ensures { weight_of result ≡ close_weight kind }
{
    match kind {
        Kind::Votes => Mark::VoteClose,
        Kind::Adjusts => Mark::AdjustClose,
    }
}

/// A phase's close, 6 or 9; after an early close it has no effect.
pub fn close(row: &mut HeadRow, kind: Kind) -> Sent
    ensures { Acts (λ (r : HeadRecord). act r (taken_as r (close_of kind))) row.old row.new result }
{
    if row.phase(kind).early == 1 {
        return no_frame();
    }
    row.marks = row.marks.with(close_mark(kind));
    close_early(row);
    no_frame()
}

pub fn adjust_turn(row: &mut HeadRow) -> Sent
    ensures { Acts (λ (r : HeadRecord). act r (taken_as r AdjustTurn)) row.old row.new result }
{
    if row.adjusts.early == 1 {
        return no_frame();
    }
    row.marks = row.marks.with(Mark::AdjustTurn);
    let s = propose(row);
    close_early(row);
    s
}

// 8: "as 5, with adjuster and adjustment"
fn take_adjust(row: &mut HeadRow, p: u32, serial: u32, a: u32, x: u32) -> Sent
    ensures { p < 16 → serial < 16 → a < 16
        → Acts (take_adjust p serial a (reading x)) row.old row.new result }
{
    keep(&mut row.adjusts, head_index(p), serial, a.wrapping_add(1));
    if outranks(a, row.adjusts.choice) {
        return adjust(row, a, x);
    }
    no_frame()
}

// 8, beside 5: what is the same of both is in `passed_over`, `keep` and `outranks`; a vote brings a reading to keep, an adjust none.
pub fn adjust_delivered(row: &mut HeadRow, p: u32, serial: u32, a: u32, x: u32) -> Sent
    ensures { p < 16 → serial < 16 → a < 16
        → Acts (λ (r : HeadRecord). act r (AdjustDelivered p serial a (reading x))) row.old row.new result }
{
    if passed_over(
        &row.adjusts,
        row.marks.has(Mark::AdjustClose),
        head_index(p),
        serial,
    ) {
        return no_frame();
    }
    let s = take_adjust(row, p, serial, a, x);
    close_early(row);
    s
}
