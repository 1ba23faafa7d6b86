//! Cause 9 of an entry: whether its action is open. A table is asked for the action and its head's marks; tests on the sender stay
//! outside it.
#![tactic(auto)]

ghost use Rattle.std.specs.Prelude.{◌≡◌, List, ℕ, ◌<◌};
ghost use Rattle.protocol.specs.Words.{setting_at, entry_at};
ghost use Rattle.protocol.specs.Run.{History};
ghost use Rattle.protocol.specs.OpenTable.{open_index, open_actions};
ghost use Rattle.sheet_state.specs.Arrays.{Stands};
ghost use Rattle.sheet_open.specs.Open.{is_open, sender_passes, IsInTable};

use head_open::is_spent;
use protocol::{Entry, HeadRow, Mark};
use sheet_state::head_index;

// A line for each action from 0 to 9, and on it the 128 settings of the marks: 1 where the action is open.
const OPEN: [u8; 1280] = *b"\
    11111111111111111111111111111111111111111111111111111111111111111111111111111111111111111111111111111111111111111111111111111111\
    10101010000000001010101000000000101010100000000010101010000000000000000000000000000000000000000000000000000000000000000000000000\
    11111111111111111111111111111111111111111111111111111111111111111111111111111111111111111111111111111111111111111111111111111111\
    01000100010001000100010001000100010001000100010001000100010001000100010001000100010001000100010001000100010001000100010001000100\
    00110000001100000011000000110000001100000011000000110000001100000011000000110000001100000011000000110000001100000011000000110000\
    11111111111111111111111111111111111111111111111111111111111111111111111111111111111111111111111111111111111111111111111111111111\
    11111111000000001111111100000000111111110000000011111111000000001111111100000000111111110000000011111111000000001111111100000000\
    00000000111111110000000000000000000000000000000000000000000000000000000011111111000000000000000000000000000000000000000000000000\
    11111111111111111111111111111111111111111111111111111111111111111111111111111111111111111111111111111111111111111111111111111111\
    00000000111111110000000011111111000000000000000000000000000000000000000011111111000000001111111100000000000000000000000000000000";

/// The table, to be taken once a sheet and lent: each use of a constant array writes it out on the stack.
pub fn open_actions() -> [u8; 1280]
    ensures { result ≡ open_actions }
{
    OPEN
}

// Where the table has an action with such marks.
fn open_index(a: u8, m: u32) -> usize
    requires { (a < 10) × (m < 128) }
    ensures { (result ≡ open_index a m) × (result < 1280) }
{
    (a as u32 * 128 + m) as usize
}

// Whether the frame that an entry delivers, if any, was sent, and by another head if it is a vote or an adjust. Starts are told apart
// by a test of their own, and the actions below 5 leave before the match, so that they take no indirect jump.
// The action is a number, as `Entry` has it.
fn sender_passes(e: Entry, heads: &[HeadRow; 16]) -> bool
    ensures { (ws : List ℕ) (i : ℕ) (s : History) → Stands ws i s heads.now → e ≡ entry_at ws i
        → result ≡ sender_passes s e }
{
    let a = e.action;
    let p = head_index(e.sender);
    if a == 2 {
        return heads[p].marks.has(Mark::StartSent);
    }
    if a < 5 {
        return true;
    }
    match a {
        5 => ((e.serial as u32) < heads[p].votes.sent) & (e.sender != e.head),
        8 => ((e.serial as u32) < heads[p].adjusts.sent) & (e.sender != e.head),
        _ => true,
    }
}

/// Whether an entry is open, by the table that is lent, or spent. The actions that can be spent have no sender.
pub fn is_open(e: Entry, table: &[u8; 1280], heads: &[HeadRow; 16]) -> bool
    requires { IsInTable e heads.now × (table.now ≡ open_actions) }
    ensures { (ws : List ℕ) (i : ℕ) (s : History) → Stands ws i s heads.now → e ≡ entry_at ws i
        → result ≡ is_open (setting_at ws) s e }
{
    let h = head_index(e.head);
    let i = open_index(e.action, heads[h].marks.0);
    if table[i] == b'0' {
        return is_spent(
            e.action as u32,
            heads[h].votes.early == 1,
            heads[h].adjusts.early == 1,
        );
    }
    sender_passes(e, heads)
}
