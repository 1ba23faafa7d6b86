//! What a row's number stands for that may be none: 0 for none, else one more than it. And the difference of two numbers.
#![tactic(auto)]

ghost use Rattle.std.specs.Prelude.{◌≡◌};
ghost use Rattle.std.proofs.Math.IntN.{sub_ℕ};
ghost use Rattle.protocol.specs.Row.{number_in, reading_in};
ghost use Rattle.data_values.specs.Numbers.{cut_number};

use protocol::Reading;

/// A head number or a serial.
pub fn number_in(w: u32) -> Option<u8>
    ensures { result ≡ cut_number (number_in w) }
{
    w.checked_sub(1).map(|k| (k % 256) as u8)
}

pub fn reading_in(w: u32) -> Option<Reading>
    ensures { result ≡ reading_in w }
{
    w.checked_sub(1).map(Reading)
}

/// A difference, signed.
pub fn difference(a: u32, b: u32) -> i64
    ensures { result ≡ sub_ℕ a b }
{
    i64::from(a) - i64::from(b)
}
