//! The carriage display: what result words say of one head, words of kinds other than 6 to 8 passed over: document 02, No. 7.
#![tactic(auto)]

ghost use Rattle.std.specs.Prelude.{◌≡◌, cond, eqb, pos};
ghost use Rattle.std.proofs.Math.IntN.{sub_ℕ};
ghost use Rattle.protocol.specs.Readers.{shown_in, is_head_of, first_failed, is_shown, display, ShownRight};
ghost use Rattle.sheet_display.specs.Shown.{AreKept};

use data_values::difference;
use data_words::kind_of;
use protocol::{Cause, TIME_LIMIT};

// The words of kinds 6 to 8: how many there are, whether their kinds are in their places, and those of the head asked for.
#[derive(Clone, Copy)]
struct Kept {
    count: usize,
    kinds_fit: bool,
    of_head: [u32; 3],
}

/// "n and that the head is below it"
pub fn is_head_of(n: u32, head: u32) -> bool
    ensures { result ≡ is_head_of n head }
{
    2 <= n && n <= 16 && head < n
}

// "the correction is printed as 0 unless the outcome is 2"
fn correction_if(outcome: u32, adjustment: u32, start: u32) -> i64
    ensures { result ≡ cond (eqb outcome 2) (sub_ℕ adjustment start) (pos 0) }
{
    if outcome == 2 {
        difference(adjustment, start)
    } else {
        0
    }
}

/// "outcome to correction as the replay program prints them", by words of kinds 6, 7 and 8
pub fn shown_in(o: u32, a: u32, s: u32) -> [i64; 6]
    ensures { result ≡ shown_in o a s }
{
    let outcome = (o >> 24) % 16;
    let adjustment = a % TIME_LIMIT;
    let start = s % TIME_LIMIT;
    [
        outcome as i64,
        ((o >> 16) % 16) as i64,
        ((o >> 12) % 16) as i64,
        adjustment as i64,
        start as i64,
        correction_if(outcome, adjustment, start),
    ]
}

// "passes over kinds other than 6 to 8"
fn is_shown(w: u32) -> bool
    ensures { result ≡ is_shown w }
{
    matches!(kind_of(w), 6..=8)
}

// What is noted of the words that are shown, in one pass over all.
fn keep_shown(head: u32, words: &[u32]) -> Kept
    ensures { AreKept head words.now result }
{
    let mut kept = Kept {
        count: 0,
        kinds_fit: true,
        of_head: [0; 3],
    };
    for &w in words {
        if is_shown(w) {
            let at = kept.count;
            kept.count += 1;
            kept.kinds_fit &= kind_of(w) as usize == 6 + at % 3;
            if at / 3 == head as usize {
                kept.of_head[at % 3] = w;
            }
        }
    }
    kept
}

/// "(cause 3), then its length .. (2), then the kinds in their places (6)": the first of these tests that fails
pub fn first_failed(head: bool, long: bool, kinds: bool) -> Result<(), Cause>
    ensures { result ≡ first_failed head long kinds }
{
    if !head {
        return Err(Cause::BadFirstWord);
    }
    if !long {
        return Err(Cause::BadLength);
    }
    if !kinds {
        return Err(Cause::BadEntry);
    }
    Ok(())
}

/// What the words say of the head: outcome, candidate, adjuster, adjustment, start reading and correction, or the first of causes 3, 2
/// and 6 that applies, and then zeros. It is what a run's record says where the words are those that its replay leaves, with or without
/// those of kind 9.
pub fn display(n: u32, head: u32, words: &[u32], shown: &mut [i64; 6]) -> Result<(), Cause>
    ensures { (result ≡ (display n head words.now).verdict) × (shown.new ≡ (display n head words.now).numbers)
        × ShownRight n head words.now (record { verdict = result; numbers = shown.new }) }
{
    *shown = [0; 6];
    let kept = keep_shown(head, words);
    first_failed(
        is_head_of(n, head),
        kept.count == 3 * n as usize,
        kept.kinds_fit,
    )?;
    let [outcome, adjustment, start] = kept.of_head;
    *shown = shown_in(outcome, adjustment, start);
    Ok(())
}
