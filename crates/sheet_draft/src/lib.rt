//! A plain round's run sheet drafted into a lent buffer: document 02, No. 3.
#![tactic(auto)]

ghost use Rattle.std.specs.Prelude.{◌≡◌, true, ◌+◌, ◌-◌, ◌*◌, ◌^◌, ◌≤◌, ◌<◌, length};
ghost use Rattle.protocol.specs.Words.{has_sender};
ghost use Rattle.protocol.specs.Spelling.{entry_words};
ghost use Rattle.protocol.specs.Draft.{slots, phase_order, draft_entry, is_receiver, deliveries, slot_entries, draft_entries, last_slot_time, draft_room, draft_verdict, draft, Drafted};
ghost use Rattle.sheet_numbers.specs.Numbered.{numbered_entry};
ghost use Rattle.sheet_spelling.specs.Placed.{placed};
ghost use Rattle.sheet_draft.specs.Page.{page_at, with_slots, SlotsFit};

use data_words::{has_sender, has_serial, heads_fit};
use protocol::{Cause, TIME_LIMIT};
use sheet_numbers::{EntryNumbers, SettingNumbers};
use sheet_spelling::{write_entry, write_setting};

// Where the next entry's words go, and the real time of the next slot. The buffer is lent beside it: with the buffer as a field, the check
// did not carry its last words back to the caller.
#[derive(Clone, Copy)]
struct Position {
    place: usize,
    time: u32,
}

// A round's number of heads, and the spacing from each slot's real time to the next.
#[derive(Clone, Copy)]
struct Schedule {
    n: u8,
    spacing: u32,
}

// "the last real time": of head n − 1's action 9, 9n − 1 spacings after the first. In 64 bits nothing wraps.
fn last_slot_time(n: u32, first: u32, spacing: u32) -> u64
    requires { (2 ≤ n) × (n ≤ 16) }
    ensures { result ≡ last_slot_time n first spacing }
{
    first as u64 + spacing as u64 * (9 * (n as u64) - 1)
}

// "The room is known beforehand: 2 + 3 × (3n² + 4n) words"
fn draft_room(n: u32) -> usize
    requires { n ≤ 16 }
    ensures { result ≡ draft_room n }
{
    let n = n as usize;
    2 + 3 * (3 * (n * n) + 4 * n)
}

// The first of causes 3, 13 and 5 that applies, in this order; room is the number of words of the buffer.
#[tactic(auto, using(protocol::proofs::Valid::heads_fit_lem), unfolding(protocol::specs::Draft::draft_verdict))]
fn draft_verdict(n: u32, f: u32, first: u32, spacing: u32, room: usize) -> Result<(), Cause>
    ensures { result ≡ draft_verdict n f first spacing room }
{
    if !heads_fit(n, f) {
        return Err(Cause::BadFirstWord);
    }
    if last_slot_time(n, first, spacing) >= TIME_LIMIT as u64 {
        return Err(Cause::TimeTooFar);
    }
    if room < draft_room(n) {
        return Err(Cause::ShortBuffer);
    }
    Ok(())
}

// "clocks equal to real time"
fn draft_entry(time: u32, action: u8, head: u8, sender: u8) -> EntryNumbers
    ensures { numbered_entry result ≡ draft_entry time action head sender }
{
    EntryNumbers {
        time,
        reading: time,
        head: head as u32,
        action: action as u32,
        sender: sender as u32,
        serial: 0,
    }
}

// "own included": a start goes to all; a vote or an adjust to all but its sender.
fn is_receiver(action: u8, sender: u8, head: u8) -> bool
    ensures { result ≡ is_receiver action sender head }
{
    !(has_serial(u32::from(action)) & (head == sender))
}

// "receivers rise by number": all deliveries of one frame; returns the place behind them.
fn write_deliveries(
    n: u8,
    time: u32,
    action: u8,
    sender: u8,
    place: usize,
    out: &mut [u32],
) -> usize
    requires { (n ≤ 16) × (time < 2 ^ 28) × (action < 16) × (sender < 16) × (has_sender action ≡ true)
        × (place + 3 * length (deliveries time action sender 0 n) ≤ length out.old) }
    ensures { (result ≡ place + 3 * length (deliveries time action sender 0 n))
        × (out.new ≡ placed out.old place (entry_words (deliveries time action sender 0 n))) }
{
    let mut at = place;
    for q in 0..n {
        if is_receiver(action, sender, q) {
            write_entry(draft_entry(time, action, q, sender), at, out);
            at += 3;
        }
    }
    at
}

// A head's action, or all deliveries of its frame; returns the place behind them.
fn write_slot(n: u8, time: u32, action: u8, head: u8, place: usize, out: &mut [u32]) -> usize
    requires { (n ≤ 16) × (time < 2 ^ 28) × (action < 16) × (head < 16)
        × (place + 3 * length (slot_entries n time (record { action = action; head = head })) ≤ length out.old) }
    ensures { (result ≡ place + 3 * length (slot_entries n time (record { action = action; head = head })))
        × (out.new ≡ placed out.old place (entry_words (slot_entries n time (record { action = action; head = head })))) }
{
    if has_sender(u32::from(action)) {
        return write_deliveries(n, time, action, head, place, out);
    }
    write_entry(draft_entry(time, action, head, 0), place, out);
    place + 3
}

impl Schedule {
    // "Real time moves on by the spacing": an action of the heads from one number on and below another.
    fn write_slots(self, action: u8, from: u8, to: u8, at: &mut Position, out: &mut [u32])
        requires { (self.n ≤ 16) × (self.spacing < 2 ^ 28) × (action < 16) × (to ≤ 16) × SlotsFit self.n self.spacing (page_at at.old out.old) (slots action from to) }
        ensures { page_at at.new out.new ≡ with_slots self.n self.spacing (page_at at.old out.old) (slots action from to) }
    {
        for q in from..to {
            at.place = write_slot(self.n, at.time, action, q, at.place, out);
            at.time += self.spacing;
        }
    }

    // "head 0's 4, its vote's deliveries, 4 by the others, their votes' deliveries"; "7 and the adjusts in the manner of 4 and the votes"
    fn write_phase(self, turn: u8, delivery: u8, at: &mut Position, out: &mut [u32])
        requires { (self.n ≤ 16) × (self.spacing < 2 ^ 28) × (turn < 16) × (delivery < 16) × SlotsFit self.n self.spacing (page_at at.old out.old) (phase_order self.n turn delivery) }
        ensures { page_at at.new out.new ≡ with_slots self.n self.spacing (page_at at.old out.old) (phase_order self.n turn delivery) }
    {
        self.write_slots(turn, 0, 1, at, out);
        self.write_slots(delivery, 0, 1, at, out);
        self.write_slots(turn, 1, self.n, at, out);
        self.write_slots(delivery, 1, self.n, at, out);
    }
}

// "The order is: 1 by all; the starts' deliveries, own included; 3 by all; [the votes]; 6 by all; [the adjusts]; 9 by all"
fn write_round(n: u8, first: u32, spacing: u32, out: &mut [u32])
    requires { (2 ≤ n) × (n ≤ 16) × (last_slot_time n first spacing < 2 ^ 28) × (draft_room n ≤ length out.old) }
    ensures { out.new ≡ placed out.old 2 (entry_words (draft_entries n first spacing)) }
{
    let round = Schedule { n, spacing };
    let mut at = Position {
        place: 2,
        time: first,
    };
    round.write_slots(1, 0, n, &mut at, out);
    round.write_slots(2, 0, n, &mut at, out);
    round.write_slots(3, 0, n, &mut at, out);
    round.write_phase(4, 5, &mut at, out);
    round.write_slots(6, 0, n, &mut at, out);
    round.write_phase(7, 8, &mut at, out);
    round.write_slots(9, 0, n, &mut at, out);
}

// "all heads correct": n bits set
fn all_correct(n: u32) -> u32
    requires { n ≤ 16 }
    ensures { (result ≡ 2 ^ n - 1) × (result < 2 ^ 16) }
{
    (1 << n) - 1
}

/// Drafts the plain round of n heads from a first real time on, or refuses and leaves the buffer as it was.
pub fn draft_sheet(n: u32, f: u32, first: u32, spacing: u32, out: &mut [u32]) -> Result<(), Cause>
    ensures { (result ≡ (draft n f first spacing out.old).verdict)
        × (out.new ≡ (draft n f first spacing out.old).buffer)
        × Drafted n result out.new }
{
    draft_verdict(n, f, first, spacing, out.len())?;
    let setting = SettingNumbers {
        n,
        f,
        correct: all_correct(n),
        drift: 0,
        tightness: 0,
    };
    write_setting(setting, out);
    write_round(n as u8, first, spacing, out);
    Ok(())
}
