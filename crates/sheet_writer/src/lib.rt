//! A run sheet written from a recorder's numbers into a lent buffer: document 02, No. 1.
#![tactic(auto)]

ghost use Rattle.std.specs.Prelude.{◌≡◌, length};
ghost use Rattle.protocol.specs.Recorder.{count_in, write_sheet, Recorded};
ghost use Rattle.sheet_numbers.specs.Numbered.{numbered_setting};
ghost use Rattle.sheet_writer.specs.Buffer.{AreWritable, entries_behind};

use protocol::Cause;
use sheet_numbers::{NUMBERS_PER_ENTRY, SettingNumbers, entry_in, write_verdict};
use sheet_spelling::{write_entry, write_setting};

// The words of all entries, behind the sheet's first two; words past the last one are kept.
#[tactic(auto, using(crate::proofs::Words::no_entries, crate::proofs::Words::one_of_them, crate::proofs::Words::next_entry))]
fn write_entries(numbers: &[u32], out: &mut [u32])
    requires { AreWritable numbers.now (length out.old) }
    ensures { out.new ≡ entries_behind out.old numbers.now (count_in numbers.now) }
{
    for i in 0..numbers.len() / NUMBERS_PER_ENTRY {
        write_entry(entry_in(numbers, i), 2 + 3 * i, out);
    }
}

/// Writes the run sheet of a setting and of entries, six numbers each, or refuses and leaves the buffer as it was.
#[tactic(auto, using(protocol::proofs::Spelling::writable))]
pub fn write_sheet(setting: SettingNumbers, numbers: &[u32], out: &mut [u32]) -> Result<(), Cause>
    ensures { (result ≡ (write_sheet (numbered_setting setting) numbers.now out.old).verdict)
        × (out.new ≡ (write_sheet (numbered_setting setting) numbers.now out.old).buffer)
        × Recorded (numbered_setting setting) numbers.now result out.new }
{
    write_verdict(setting, numbers, out.len())?;
    write_setting(setting, out);
    write_entries(numbers, out);
    Ok(())
}
