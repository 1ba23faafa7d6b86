//! Texts, byte by byte, into a lent buffer from a position on: document 01, "The bench sheet, and its neighbours".
//! A byte past the buffer's end is dropped, and the position that comes back counts it all the same. Not std's formatting: what it
//! promises of a text holds only where it succeeds, and no clause says that it does.
#![tactic(auto)]

ghost use Rattle.std.specs.Prelude.{◌≡◌, [], ◌∷◌};
ghost use Rattle.std.proofs.Math.IntN.{sub_ℕ};
ghost use Rattle.protocol.specs.Program.{decimal, signed};
ghost use Rattle.print_text.specs.Written.{written, end_of};

const LAST_POSITION: usize = 18446744073709551615;

/// One byte; back comes the position behind it.
pub fn put(out: &mut [u8], at: usize, b: u8) -> usize
    ensures { (out.new ≡ written out.old at (b ∷ [])) × (result ≡ end_of at (b ∷ [])) }
{
    if at < out.len() {
        out[at] = b;
        return at + 1;
    }
    if at < LAST_POSITION { at + 1 } else { at }
}

/// The bytes of a text.
pub fn put_text(out: &mut [u8], at: usize, text: &[u8]) -> usize
    ensures { (out.new ≡ written out.old at text.now) × (result ≡ end_of at text.now) }
{
    let mut p = at;
    for i in 0..text.len() {
        p = put(out, p, text[i]);
    }
    p
}

/// A number's digits: those of a tenth of it, then its last one.
pub fn put_decimal(out: &mut [u8], at: usize, x: u64) -> usize
    ensures { (out.new ≡ written out.old at (decimal x)) × (result ≡ end_of at (decimal x)) }
{
    let digit = 48 + (x % 10) as u8;
    if x < 10 {
        put(out, at, digit)
    } else {
        let p = put_decimal(out, at, x / 10);
        put(out, p, digit)
    }
}

/// a less b, signed.
pub fn put_difference(out: &mut [u8], at: usize, a: u32, b: u32) -> usize
    ensures { (out.new ≡ written out.old at (signed (sub_ℕ a b))) × (result ≡ end_of at (signed (sub_ℕ a b))) }
{
    if a < b {
        let p = put(out, at, 45);
        put_decimal(out, p, (b - a) as u64)
    } else {
        put_decimal(out, at, (a - b) as u64)
    }
}
