//! The numbers that a recorder gives for a run sheet, tested before a word of it is written: document 02, No. 1.
#![tactic(auto)]

ghost use Rattle.std.specs.Prelude.{◌≡◌, ◌+◌, ◌*◌, ◌≤◌, ◌<◌, length};
ghost use Rattle.protocol.specs.Base.{all};
ghost use Rattle.protocol.specs.Recorder.{numbers_per_entry, entry_in, entries_in, most_numbers};
ghost use Rattle.protocol.specs.Recorder.{setting_in_width, entry_in_width, entry_in_range, write_verdict};
ghost use Rattle.sheet_numbers.specs.Numbered.{numbered_setting, numbered_entry};

use data_words::{first_fields_fit, is_time, zero_where_unused};
use protocol::Cause;

/// "six numbers an entry"; "more than 24,576 numbers" are too many
pub const NUMBERS_PER_ENTRY: usize = 6;

const MOST_NUMBERS: usize = 24576;

/// A setting's five numbers, as they are given.
#[derive(Clone, Copy)]
pub struct SettingNumbers {
    pub n: u32,
    pub f: u32,
    pub correct: u32,
    pub drift: u32,
    pub tightness: u32,
}

/// An entry's six numbers, as they are given.
#[derive(Clone, Copy)]
pub struct EntryNumbers {
    pub time: u32,
    pub reading: u32,
    pub head: u32,
    pub action: u32,
    pub sender: u32,
    pub serial: u32,
}

// Whether each entry passes the tests of cause 12 and of cause 6.
#[derive(Clone, Copy)]
struct Tested {
    in_width: bool,
    in_range: bool,
}

/// "one list of six numbers an entry, in M1's order": entry i
pub fn entry_in(numbers: &[u32], i: usize) -> EntryNumbers
    requires { (i < 4096) × (numbers_per_entry * i + 5 < length numbers.now) }
    ensures { numbered_entry result ≡ entry_in numbers.now i }
{
    let at = NUMBERS_PER_ENTRY * i;
    EntryNumbers {
        time: numbers[at],
        reading: numbers[at + 1],
        head: numbers[at + 2],
        action: numbers[at + 3],
        sender: numbers[at + 4],
        serial: numbers[at + 5],
    }
}

// "12 when a field exceeds its width": n, f, correct bits, drift and tightness
#[tactic(auto, unfolding(protocol::specs::Recorder::setting_in_width))]
fn setting_in_width(s: SettingNumbers) -> bool
    ensures { result ≡ setting_in_width (numbered_setting s) }
{
    s.n < 256 && s.f < 16 && s.correct < 65536 && s.drift < 4096 && s.tightness < 65536
}

// "12 when a field exceeds its width or is set where 01 wants zero": an entry's six.
#[tactic(auto, unfolding(protocol::specs::Recorder::entry_in_width))]
fn entry_in_width(e: EntryNumbers) -> bool
    ensures { result ≡ entry_in_width (numbered_entry e) }
{
    is_time(e.time)
        && (is_time(e.reading)
            && (e.head < 16
                && (e.action < 16
                    && (e.sender < 16
                        && (e.serial < 16 && zero_where_unused(e.action, e.sender, e.serial))))))
}

// "6 for an action above 9 or a head or sender not below n"
#[tactic(auto, unfolding(protocol::specs::Recorder::entry_in_range))]
fn entry_in_range(n: u32, e: EntryNumbers) -> bool
    ensures { result ≡ entry_in_range n (numbered_entry e) }
{
    e.action <= 9 && e.head < n && e.sender < n
}

// Both tests of every entry, in one pass: by `.all(..)` it would be two, and the check left its goal open.
#[tactic(auto, using(crate::proofs::Tests::all_more))]
fn test_entries(n: u32, numbers: &[u32]) -> Tested
    requires { length numbers.now ≤ most_numbers }
    ensures { (result.in_width ≡ all entry_in_width (entries_in numbers.now)) × (result.in_range ≡ all (entry_in_range n) (entries_in numbers.now)) }
{
    let mut in_width = true;
    let mut in_range = true;
    for i in 0..numbers.len() / NUMBERS_PER_ENTRY {
        let e = entry_in(numbers, i);
        in_width &= entry_in_width(e);
        in_range &= entry_in_range(n, e);
    }
    Tested { in_width, in_range }
}

/// The first of causes 1, 2, 12, 3, 6 and 5 that applies, in this order; room is the number of words of the buffer.
#[tactic(auto, unfolding(protocol::specs::Recorder::write_verdict, protocol::specs::Recorder::setting_in_width))]
pub fn write_verdict(setting: SettingNumbers, numbers: &[u32], room: usize) -> Result<(), Cause>
    ensures { result ≡ write_verdict (numbered_setting setting) numbers.now room }
{
    let len = numbers.len();
    if MOST_NUMBERS < len {
        return Err(Cause::TooManyWords);
    }
    if len % NUMBERS_PER_ENTRY != 0 {
        return Err(Cause::BadLength);
    }
    let tested = test_entries(setting.n, numbers);
    if !setting_in_width(setting) || !tested.in_width {
        return Err(Cause::BadField);
    }
    if !first_fields_fit(setting.n as u8, setting.f as u8, setting.correct as u16) {
        return Err(Cause::BadFirstWord);
    }
    if !tested.in_range {
        return Err(Cause::BadEntry);
    }
    if room < 2 + 3 * (len / NUMBERS_PER_ENTRY) {
        return Err(Cause::ShortBuffer);
    }
    Ok(())
}
