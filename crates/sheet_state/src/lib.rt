//! What a run keeps: a row for each head, fresh at first; and at which index an array has a head, or a vote or adjust. Arrays by
//! frame have 512 numbers, votes at head × 16 + serial, adjusts 256 further.
#![tactic(auto)]

ghost use Rattle.std.specs.Prelude.{◌≡◌, [], ◌<◌, ◌%◌};
ghost use Rattle.sheet_state.specs.Arrays.{head_rows};
ghost use Rattle.sheet_state.specs.Indices.{frame_index};

use head_row::fresh_row;
use protocol::{HeadRow, Setting};

/// "Before the first entry every head's record is fresh": the rows of sixteen heads, of which the sheet has the first n.
// Not inlined: where a struct has the rows as a field, they are then written in place, and no copies of parts of them take stack.
#[inline(never)]
pub fn fresh_heads(g: Setting) -> [HeadRow; 16]
    ensures { result ≡ head_rows g [] }
{
    let fresh = fresh_row(g.n as u32, g.f as u32, 0);
    let mut heads = [fresh; 16];
    for q in 0..16 {
        heads[q].own = q as u32;
    }
    heads
}

/// The index of head p in an array by head. head_row has it of a u32: each of the calls here would have to widen its u8 first.
pub fn head_index(p: u8) -> usize
    ensures { result ≡ p % 16 }
{
    (p % 16) as usize
}

/// The index of the vote (action 5) or adjust (action 8) of head p under serial k.
pub fn frame_index(a: u8, p: u8, k: u8) -> usize
    ensures { (result ≡ frame_index a p k) × (result < 512) }
{
    if a == 8 {
        256 + (p % 16) as usize * 16 + (k % 16) as usize
    } else {
        0 + (p % 16) as usize * 16 + (k % 16) as usize
    }
}
