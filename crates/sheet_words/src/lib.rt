//! A sheet's words: causes 1 to 4 of the whole sheet, its setting and its entries, and cause 6 of an entry.
#![tactic(auto)]

ghost use Rattle.std.specs.Prelude.{◌≡◌, ◌+◌, ◌*◌, ◌≤◌, ◌<◌, length};
ghost use Rattle.protocol.specs.Causes.{sheet_verdict};
ghost use Rattle.protocol.specs.Words.{setting_at, entry_count, entry_at, entry_fits, entry_fits_at, has_serial, has_sender, zero_where_unused};

use data_words::{entry_of, first_word_fits, kind_of, second_word_fits, setting_of};
use protocol::{Cause, Entry, Setting};

/// An entry, and whether its words fit (else cause 6). It is no Option: `read_entry` promises the entry even where its words don't fit.
#[derive(Clone, Copy)]
pub struct EntryRead {
    pub entry: Entry,
    pub fits: bool,
}

/// "Sheet order": causes 1 to 4.
#[tactic(auto, unfolding(protocol::specs::Causes::sheet_verdict))]
pub fn sheet_verdict(sheet: &[u32]) -> Result<(), Cause>
    ensures { result ≡ sheet_verdict sheet.now }
{
    let len = sheet.len();
    if 12290 < len {
        return Err(Cause::TooManyWords);
    }
    if len < 2 || (len - 2) % 3 != 0 {
        return Err(Cause::BadLength);
    }
    if !first_word_fits(sheet[0]) {
        return Err(Cause::BadFirstWord);
    }
    if !second_word_fits(sheet[1]) {
        return Err(Cause::BadSecondWord);
    }
    Ok(())
}

// The next three are `data_words`' in the width of an entry's fields: over 32 bits they cost an entry six instructions more, 3.5 % of a
// large sheet's.

fn has_serial(a: u8) -> bool
    ensures { result ≡ has_serial a }
{
    (a == 5) | (a == 8)
}

fn has_sender(a: u8) -> bool
    ensures { result ≡ has_sender a }
{
    (a == 2) | has_serial(a)
}

fn zero_where_unused(a: u8, sender: u8, serial: u8) -> bool
    ensures { result ≡ zero_where_unused a sender serial }
{
    (has_sender(a) | (sender == 0)) & (has_serial(a) | (serial == 0))
}

/// Cause 6: "entry's kinds, action above 9, head or sender not below n, a must-be-zero field". The parts are joined by `&&`, since nearly
/// every entry passes all of them, and a part that passes costs less so.
#[tactic(auto, unfolding(protocol::specs::Words::entry_fits, protocol::specs::Words::entry_of))]
pub fn entry_fits(n: u8, t: u32, a: u32, w: u32) -> bool
    ensures { result ≡ entry_fits n t a w }
{
    let e = entry_of(t, a, w);
    kind_of(t) == 3
        && (kind_of(a) == 4
            && (kind_of(w) == 5
                && (w % 4096 == 0
                    && (e.action <= 9
                        && (e.head < n
                            && (e.sender < n
                                && zero_where_unused(e.action, e.sender, e.serial)))))))
}

/// The setting of an accepted sheet.
pub fn setting_at(sheet: &[u32]) -> Setting
    requires { 2 ≤ length sheet.now }
    ensures { result ≡ setting_at sheet.now }
{
    setting_of(sheet[0], sheet[1])
}

/// The number of entries of an accepted sheet.
pub fn entry_count(sheet: &[u32]) -> usize
    requires { 2 ≤ length sheet.now }
    ensures { result ≡ entry_count sheet.now }
{
    (sheet.len() - 2) / 3
}

/// Entry i, for a bench of n heads.
pub fn read_entry(sheet: &[u32], n: u8, i: usize) -> EntryRead
    requires { (2 + 3 * i + 2 < length sheet.now) × (length sheet.now ≤ 12290) × (n ≡ (setting_at sheet.now).n) }
    ensures { (result.entry ≡ entry_at sheet.now i) × (result.fits ≡ entry_fits_at sheet.now i) }
{
    let at = 2 + 3 * i;
    let t = sheet[at];
    let a = sheet[at + 1];
    let w = sheet[at + 2];
    let entry = entry_of(t, a, w);
    let fits = entry_fits(n, t, a, w);
    EntryRead { entry, fits }
}
