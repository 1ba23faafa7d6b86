//! The last line that trace prints, into a lent buffer: the cause of a sheet that is turned back; of another the first broken premise
//! or 0, and where it was broken.
#![tactic(auto)]

ghost use Rattle.std.specs.Prelude.{◌≡◌, ◌≤◌, length};
ghost use Rattle.protocol.specs.Program.{last_line, last_line_of_bytes};
ghost use Rattle.print_text.specs.Written.{written};
ghost use Rattle.print_lines.specs.Lines.{last_text};

use data_bytes::{big_endian, bytes_verdict};
use judge_sheet::judge;
use print_lines::LastLine;
use protocol::Refusal;
use trace_broken::broken_at;

fn line_of_sheet(sheet: &[u32]) -> LastLine
    ensures { last_text result ≡ last_line sheet.now }
{
    match judge(sheet) {
        Ok(None) => LastLine::Premises(0),
        Ok(Some(i)) => LastLine::broken(i, broken_at(sheet, i)),
        Err(Refusal { cause, place }) => LastLine::Refused(cause, place),
    }
}

/// The last line of a sheet's bytes.
pub fn last_line(bytes: &[u8]) -> LastLine
    ensures text { last_text result ≡ last_line_of_bytes bytes.now }
    ensures short { length (last_text result) ≤ 64 }
{
    if let Err(cause) = bytes_verdict(bytes) {
        return LastLine::Refused(cause, 0);
    }
    let words = big_endian(bytes);
    line_of_sheet(&words[..bytes.len() / 4])
}

/// What is printed last of a sheet's bytes, from the buffer's first byte on; back comes its length.
pub fn put_last_line(bytes: &[u8], out: &mut [u8]) -> usize
    ensures { (out.new ≡ written out.old 0 (last_line_of_bytes bytes.now)) × (result ≡ length (last_line_of_bytes bytes.now)) × (result ≤ 64) }
{
    last_line(bytes).put(out, 0)
}
