//! A sheet that is given as bytes: causes 1 and 2 of them, and their big-endian words.
#![tactic(auto, unfolding(protocol::specs::Program::bytes_verdict))]

ghost use Rattle.std.specs.Prelude.{◌≡◌, ◌/◌, ◌≤◌, length, take, get_or};
ghost use Rattle.protocol.specs.Program.{big_endian, bytes_verdict};

use protocol::Cause;

/// "above 49,160 bytes is cause 1, tested first; a length not a multiple of 4 is cause 2"
pub fn bytes_verdict(bytes: &[u8]) -> Result<(), Cause>
    ensures { result ≡ bytes_verdict bytes.now }
{
    let n = bytes.len();
    if 49160 < n {
        return Err(Cause::TooManyWords);
    }
    if n % 4 != 0 {
        return Err(Cause::BadLength);
    }
    Ok(())
}

/// Word i of the bytes, 0 past the last whole one.
pub fn word_at(bytes: &[u8], i: usize) -> u32
    ensures { result ≡ get_or (big_endian bytes.now) i 0 }
{
    if bytes.len() / 4 <= i {
        return 0;
    }
    let at = 4 * i;
    u32::from_be_bytes([bytes[at], bytes[at + 1], bytes[at + 2], bytes[at + 3]])
}

/// The words of a sheet of at most 49,160 bytes; zeros follow them.
pub fn big_endian(bytes: &[u8]) -> [u32; 12290]
    ensures room { 12290 ≡ length result }
    ensures words { length bytes.now ≤ 49160 → take (length bytes.now / 4) result ≡ big_endian bytes.now }
{
    let mut words = [0; 12290];
    for i in 0..12290 {
        words[i] = word_at(bytes, i);
    }
    words
}
