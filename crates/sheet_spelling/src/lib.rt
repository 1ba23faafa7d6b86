//! The words of a setting and of an entry, written into a lent buffer: document 01, "Words of a run sheet".
#![tactic(auto, unfolding(protocol::specs::Recorder::setting_in_width, protocol::specs::Recorder::entry_in_width, protocol::specs::Spelling::entry_words, crate::specs::Placed::placed))]

ghost use Rattle.std.specs.Prelude.{◌≡◌, true, [], ◌∷◌, ◌+◌, ◌≤◌, length};
ghost use Rattle.protocol.specs.Spelling.{entry_words};
ghost use Rattle.protocol.specs.Recorder.{setting_in_width, entry_in_width};
ghost use Rattle.sheet_numbers.specs.Numbered.{numbered_setting, numbered_entry};
ghost use Rattle.sheet_spelling.specs.Placed.{placed, setting_in_front};

use sheet_numbers::{EntryNumbers, SettingNumbers};

// a word's kind is its top four bits
const KIND_1: u32 = 1 << 28;

const KIND_2: u32 = 2 << 28;

const KIND_3: u32 = 3 << 28;

const KIND_4: u32 = 4 << 28;

const KIND_5: u32 = 5 << 28;

/// "First word, kind 1: bits 27–20 n (heads, 2..16), 19–16 f, 15–0 one bit per correct head"
/// "Second word, kind 2: bits 27–16 drift in parts per million, 15–0 tightness in microseconds"
pub fn write_setting(s: SettingNumbers, out: &mut [u32])
    requires { (setting_in_width (numbered_setting s) ≡ true) × (2 ≤ length out.old) }
    ensures { out.new ≡ setting_in_front out.old (numbered_setting s) }
{
    out[0] = KIND_1 + (s.n << 20) + (s.f << 16) + s.correct;
    out[1] = KIND_2 + (s.drift << 16) + s.tightness;
}

// "Each entry, three words: kind 3 with the real time, kind 4 with the head's reading (of the clock in use),
// kind 5 with bits 27–24 action, 23–20 head, 19–16 sender, 15–12 serial, 11–0 zero"
fn entry_words(e: EntryNumbers) -> [u32; 3]
    requires { entry_in_width (numbered_entry e) ≡ true }
    ensures { result ≡ entry_words (numbered_entry e ∷ []) }
{
    [
        KIND_3 + e.time,
        KIND_4 + e.reading,
        KIND_5 + (e.action << 24) + (e.head << 20) + (e.sender << 16) + (e.serial << 12),
    ]
}

/// An entry's words from a place on; all other words are kept.
pub fn write_entry(e: EntryNumbers, at: usize, out: &mut [u32])
    requires { (entry_in_width (numbered_entry e) ≡ true) × (at + 3 ≤ length out.old) }
    ensures { out.new ≡ placed out.old at (entry_words (numbered_entry e ∷ [])) }
{
    out[at..at + 3].copy_from_slice(&entry_words(e));
}
