//! The planner's reader: what result words say of one head, and the frames that it broadcast: document 02, No. 7.
#![tactic(auto)]

ghost use Rattle.std.specs.Prelude.{◌≡◌, ◌++◌};
ghost use Rattle.protocol.specs.Readers.{shown_in, counts_in, kinds_fit, plan, PlannedRight};

use data_words::kind_of;
use protocol::Cause;
use sheet_display::{first_failed, is_head_of, shown_in};

// "the kinds in their places", of four words a head. A loop: of `.all(..)` the check left the goal open.
#[tactic(auto, unfolding(protocol::specs::Readers::kinds_fit))]
fn kinds_fit(words: &[u32]) -> bool
    ensures { result ≡ kinds_fit 4 words.now }
{
    let mut fits = true;
    for (i, &w) in words.iter().enumerate() {
        fits &= kind_of(w) as usize == 6 + i % 4;
    }
    fits
}

// What the display gives, and "bits 27–20 starts, 19–12 votes, 11–4 adjusts"; by words of kinds 6 to 9
fn told_in(o: u32, a: u32, s: u32, w: u32) -> [i64; 9]
    ensures { result ≡ shown_in o a s ++ counts_in w }
{
    let [outcome, candidate, adjuster, adjustment, start, correction] = shown_in(o, a, s);
    let starts = ((w >> 20) % 256) as i64;
    let votes = ((w >> 12) % 256) as i64;
    let adjusts = ((w >> 4) % 256) as i64;
    [
        outcome, candidate, adjuster, adjustment, start, correction, starts, votes, adjusts,
    ]
}

/// What the words say of the head: what the display gives, then starts, votes and adjusts; or the first of causes 3, 2 and 6 that
/// applies, and then zeros. It is what a run's record says, and how many frames its steps sent, where the words are those that its replay
/// leaves.
pub fn plan(n: u32, head: u32, words: &[u32], told: &mut [i64; 9]) -> Result<(), Cause>
    ensures { (result ≡ (plan n head words.now).verdict) × (told.new ≡ (plan n head words.now).numbers)
        × PlannedRight n head words.now (record { verdict = result; numbers = told.new }) }
{
    *told = [0; 9];
    let fits = kinds_fit(words);
    first_failed(is_head_of(n, head), words.len() == 4 * n as usize, fits)?;
    let at = 4 * head as usize;
    *told = told_in(words[at], words[at + 1], words[at + 2], words[at + 3]);
    Ok(())
}
