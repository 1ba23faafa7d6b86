//! One entry of a sheet: the verdict on it, and what an accepted one does to its head's row.
#![tactic(auto)]

ghost use Rattle.std.specs.Prelude.{◌≡◌, true, List, ◌∷◌, ℕ, ◌-◌};
ghost use Rattle.protocol.specs.declared.HeadRow.{HeadRow};
ghost use Rattle.protocol.specs.Types.{Accepted};
ghost use Rattle.protocol.specs.Words.{setting_at, entry_at, entry_fits_at};
ghost use Rattle.head_row.specs.Sent.{sent_of};
ghost use Rattle.protocol.specs.Run.{History, frame_of, input_of, last_time};
ghost use Rattle.protocol.specs.OpenTable.{open_actions};
ghost use Rattle.sheet_state.specs.Arrays.{head_rows, answer_at, event_at, Stands, Carries};
ghost use Rattle.sheet_open.specs.Open.{IsInTable};

use head_row::Sent;
use head_step::act;
use protocol::{Cause, Entry, HeadRow, Input};
use sheet_open::is_open;
use sheet_state::{frame_index, head_index};

/// "entry by entry 6 to 9"; cause 9 by the table of open actions, which is lent.
pub fn entry_verdict(
    e: Entry,
    fits: bool,
    time: u32,
    table: &[u8; 1280],
    heads: &[HeadRow; 16],
) -> Result<(), Cause>
    requires { (fits ≡ true → IsInTable e heads.now) × (table.now ≡ open_actions) }
    ensures { (ws : List ℕ) (i : ℕ) (s : History) → Stands ws i s heads.now → time ≡ last_time s → e ≡ entry_at ws i → fits ≡ entry_fits_at ws i
        → result ≡ (answer_at ws i s).verdict }
{
    if !fits {
        return Err(Cause::BadEntry);
    }
    if e.time.0 < time {
        return Err(Cause::TimeFell);
    }
    if e.reading.0 < heads[head_index(e.head)].last {
        return Err(Cause::ReadingFell);
    }
    if is_open(e, table, heads) {
        return Ok(());
    }
    Err(Cause::ActionClosed)
}

// A vote's reading, which is kept one more than itself, and 0 for none.
fn vote_reading(carried: u32) -> u32
    ensures { result ≡ carried - 1 }
{
    if carried == 0 { 0 } else { carried - 1 }
}

// An entry's numbers, with what a frame carries.
fn input_with(e: Entry, choice: u8, carried: u32, none: bool) -> Input
    ensures { result ≡ record { action = e.action; reading = e.reading.0; sender = e.sender; serial = e.serial; choice = choice; carried = carried; none = none } }
{
    Input {
        action: e.action as u32,
        reading: e.reading.0,
        sender: e.sender as u32,
        serial: e.serial as u32,
        choice: choice as u32,
        carried,
        none,
    }
}

// "A delivered vote or adjust carries what its sender's step sent under that serial". The action is a number, as `Entry` has it.
fn input_of(e: Entry, choices: &[u8; 512], carried: &[u32; 512]) -> Input
    ensures { (ws : List ℕ) (i : ℕ) (s : History) (heads : List HeadRow) → Stands ws i s heads → Carries s choices.now carried.now → e ≡ entry_at ws i
        → result ≡ input_of e (frame_of s e) }
{
    let a = e.action;
    let j = frame_index(a, e.sender, e.serial);
    match a {
        5 => input_with(e, choices[j], vote_reading(carried[j]), carried[j] == 0),
        8 => input_with(e, choices[j], carried[j], false),
        _ => input_with(e, 0, 0, false),
    }
}

// Keeps a vote or an adjust that head h sent.
fn keep_frame(h: u8, x: Sent, choices: &mut [u8; 512], carried: &mut [u32; 512])
    ensures { (ws : List ℕ) (i : ℕ) (s : History) (heads : List HeadRow) → Stands ws i s heads → Carries s choices.old carried.old → (answer_at ws i s).verdict ≡ Accepted
        → h ≡ (entry_at ws i).head → x ≡ sent_of (answer_at ws i s).frame → Carries (event_at ws i s ∷ s) choices.new carried.new }
{
    if 5 <= x.kind {
        let j = frame_index((x.kind % 256) as u8, h, (x.serial % 256) as u8);
        choices[j] = (x.choice % 256) as u8;
        carried[j] = x.carried;
    }
}

/// What an accepted entry does.
pub fn take_entry(
    e: Entry,
    heads: &mut [HeadRow; 16],
    choices: &mut [u8; 512],
    carried: &mut [u32; 512],
)
    ensures { (ws : List ℕ) (i : ℕ) (s : History) → Stands ws i s heads.old → Carries s choices.old carried.old → e ≡ entry_at ws i → (answer_at ws i s).verdict ≡ Accepted
        → (heads.new ≡ head_rows (setting_at ws) (event_at ws i s ∷ s)) × Carries (event_at ws i s ∷ s) choices.new carried.new }
{
    let i = input_of(e, choices, carried);
    let h = head_index(e.head);
    let x = act(&mut heads[h], i);
    keep_frame(e.head, x, choices, carried);
}
