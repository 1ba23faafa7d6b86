//! The numbers that a caller gives for one head: whether they fit.
#![tactic(auto)]

ghost use Rattle.std.specs.Prelude.{◌≡◌};
ghost use Rattle.protocol.specs.Step.{input_fits};
ghost use Rattle.head_input.specs.Parts.{sender_fits, carried_fits};

use data_words::{has_serial, is_time, zero_where_unused};
use protocol::Input;

// Whose frame it is, and which of that head's.
fn sender_fits(n: u32, i: Input) -> bool
    ensures { result ≡ sender_fits n i }
{
    i.sender < n && i.serial <= 15 && zero_where_unused(i.action, i.sender, i.serial)
}

// Only a vote or an adjust carries something; only a vote has the mark "none", with a reading of 0.
fn carried_fits(n: u32, i: Input) -> bool
    ensures { result ≡ carried_fits n i }
{
    i.choice < n
        && is_time(i.carried)
        && (has_serial(i.action) || (i.choice == 0 && i.carried == 0))
        && (!i.none || (i.action == 5 && i.carried == 0))
}

#[tactic(auto, using(crate::proofs::Parts::in_parts))]
/// Whether the numbers fit a bench of n heads (else cause 6).
pub fn input_fits(n: u32, i: Input) -> bool
    ensures { result ≡ input_fits n i }
{
    i.action <= 9 && sender_fits(n, i) && is_time(i.reading) && carried_fits(n, i)
}
