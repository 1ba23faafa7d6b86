//! The words of a run sheet, taken apart and tested: document 01, "Words of a run sheet".
//! Bits HIGH–LOW of a word are the word shifted right by LOW, modulo 2 to the number of those bits.
//! The parts of a test are joined by `&` and `|`: each part is total, and costs less than a branch.
//! Actions go by their numbers: the definitions are said of whatever four bits a word has.
#![tactic(auto, unfolding(protocol::specs::Words::setting_of, protocol::specs::Words::entry_of, protocol::specs::Words::first_word_fits))]

ghost use Rattle.std.specs.Prelude.{◌≡◌, ◌^◌, ltb};
ghost use Rattle.protocol.specs.Words.{kind_of, is_time, setting_of, is_correct, heads_fit, first_fields_fit, first_word_fits, second_word_fits};
ghost use Rattle.protocol.specs.Words.{entry_of, has_serial, has_sender, zero_where_unused};

use protocol::{Entry, Reading, RealTime, Setting, TIME_LIMIT};

/// "the top four bits are the kind"
pub fn kind_of(w: u32) -> u32
    ensures { result ≡ kind_of w }
{
    (w >> 28) % 16
}

pub fn is_time(x: u32) -> bool
    ensures { result ≡ is_time x }
{
    x < TIME_LIMIT
}

/// "First word, kind 1: bits 27–20 n (heads, 2..16), 19–16 f, 15–0 one bit per correct head"
/// "Second word, kind 2: bits 27–16 drift in parts per million, 15–0 tightness in microseconds"
pub fn setting_of(a: u32, b: u32) -> Setting
    ensures { result ≡ setting_of a b }
{
    Setting {
        n: ((a >> 20) % 256) as u8,
        f: ((a >> 16) % 16) as u8,
        correct: (a % 65536) as u16,
        drift: ((b >> 16) % 4096) as u16,
        tightness: (b % 65536) as u16,
    }
}

/// "bit 0 for head 0"; of 16 bits there is none at 16 or above
pub fn is_correct(g: Setting, q: u8) -> bool
    ensures { result ≡ is_correct g q }
{
    q < 16 && (g.correct >> q) % 2 == 1
}

/// 2 to 16 heads; 2f + 1 is at most n where f is less than half of n, rounded up.
pub fn heads_fit(n: u32, f: u32) -> bool
    ensures { result ≡ heads_fit n f }
{
    2 <= n && n <= 16 && f < (n + 1) / 2
}

// cause 3: whether there is no "correct bit at n or above"
fn none_from(correct: u16, n: u8) -> bool
    ensures { result ≡ ltb correct (2 ^ n) }
{
    16 <= n || correct >> n == 0
}

/// cause 3 of a first word's fields: n and f "against its rules, or a correct bit at n or above"
pub fn first_fields_fit(n: u8, f: u8, correct: u16) -> bool
    ensures { result ≡ first_fields_fit n f correct }
{
    heads_fit(u32::from(n), u32::from(f)) & none_from(correct, n)
}

/// cause 3: "first word against its rules, or a correct bit at n or above"
pub fn first_word_fits(a: u32) -> bool
    ensures { result ≡ first_word_fits a }
{
    let g = setting_of(a, 0);
    (kind_of(a) == 1) & first_fields_fit(g.n, g.f, g.correct)
}

/// cause 4: "second word not kind 2"
pub fn second_word_fits(b: u32) -> bool
    ensures { result ≡ second_word_fits b }
{
    kind_of(b) == 2
}

/// "kind 3 with the real time, kind 4 with the head's reading (of the clock in use)",
/// "bits 27–24 action, 23–20 head, 19–16 sender, 15–12 serial"
pub fn entry_of(t: u32, a: u32, w: u32) -> Entry
    ensures { result ≡ entry_of t a w }
{
    let time = RealTime(t % TIME_LIMIT);
    let reading = Reading(a % TIME_LIMIT);
    Entry {
        time,
        reading,
        head: ((w >> 20) % 16) as u8,
        action: ((w >> 24) % 16) as u8,
        sender: ((w >> 16) % 16) as u8,
        serial: ((w >> 12) % 16) as u8,
    }
}

/// the actions with a serial, 5 and 8
pub fn has_serial(a: u32) -> bool
    ensures { result ≡ has_serial a }
{
    (a == 5) | (a == 8)
}

/// the actions with a sender, 2, 5 and 8
pub fn has_sender(a: u32) -> bool
    ensures { result ≡ has_sender a }
{
    (a == 2) | has_serial(a)
}

/// "Sender is zero except in actions 2, 5, 8; serial is zero except in 5 and 8"
pub fn zero_where_unused(a: u32, sender: u32, serial: u32) -> bool
    ensures { result ≡ zero_where_unused a sender serial }
{
    (has_sender(a) | (sender == 0)) & (has_serial(a) | (serial == 0))
}
