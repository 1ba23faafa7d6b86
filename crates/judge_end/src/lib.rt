//! At the end of a run: premises 1 and 4, and the first broken premise.
#![tactic(auto)]

ghost use Rattle.std.specs.Prelude.{◌≡◌, ◌&&◌, ◌||◌, List, ℕ, ◌≤◌, eqb, Ok};
ghost use Rattle.protocol.specs.Base.{count_below};
ghost use Rattle.protocol.specs.Words.{is_correct, setting_at};
ghost use Rattle.protocol.specs.Step.{has_mark};
ghost use Rattle.protocol.specs.Run.{History};
ghost use Rattle.protocol.specs.Premises.{premise1, premise4, first_broken};
ghost use Rattle.sheet_state.specs.Arrays.{Stands};

use data_words::is_correct;
use protocol::{HeadRow, Mark, Setting};
use sheet_state::head_index;

fn correct_heads(g: Setting) -> u8
    ensures { (result ≡ count_below g.n (is_correct g)) × (result ≤ g.n) }
{
    let mut k = 0;
    for q in 0..g.n {
        k += u8::from(is_correct(g, q));
    }
    k
}

/// "1. At least n − f heads are correct"
pub fn premise_1(g: Setting) -> bool
    ensures { result ≡ premise1 g }
{
    g.n as u16 <= correct_heads(g) as u16 + g.f as u16
}

// A head's marks after actions 6, 7 and 9, or early closes in their place.
fn has_ended(row: &HeadRow) -> bool
    ensures { result ≡ (has_mark row.now.marks.0 8 && ((has_mark row.now.marks.0 16 || eqb row.now.adjusts.early 1) && has_mark row.now.marks.0 32)) }
{
    row.marks.has(Mark::VoteClose)
        && ((row.marks.has(Mark::AdjustTurn) | (row.adjusts.early == 1))
            && row.marks.has(Mark::AdjustClose))
}

/// "4. Every correct head takes actions 6, 7 and 9"
pub fn premise_4(g: Setting, heads: &[HeadRow; 16]) -> bool
    ensures { (ws : List ℕ) (i : ℕ) (s : History) → Stands ws i s heads.now → g ≡ setting_at ws → result ≡ premise4 g s }
{
    for q in 0..g.n {
        if is_correct(g, q) & !has_ended(&heads[head_index(q)]) {
            return false;
        }
    }
    true
}

/// The first broken premise, by whether each of them is kept.
pub fn first_broken(kept: &[bool; 8]) -> Option<u8>
    ensures { Ok result ≡ first_broken 1 kept.now }
{
    for (i, is_kept) in kept.iter().enumerate() {
        if !*is_kept {
            return Some(i as u8 + 1);
        }
    }
    None
}
