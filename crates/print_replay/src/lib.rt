//! What the replay program prints, into a lent buffer: document 01, "The bench sheet, and its neighbours".
#![tactic(auto)]

ghost use Rattle.std.specs.Prelude.{◌≡◌, ◌≤◌, length};
ghost use Rattle.protocol.specs.Premises.{premise_number};
ghost use Rattle.protocol.specs.Program.{print_sheet, printed};
ghost use Rattle.print_text.specs.Written.{written, end_of};
ghost use Rattle.print_replay.specs.Printout.{text_of, printout_text};

use data_bytes::{big_endian, bytes_verdict};
use judge_sheet::replay_and_judge;
use print_lines::{LastLine, Results};
use protocol::Refusal;
use sheet_words::setting_at;

/// All that is printed of a sheet's bytes: the results, or why it is turned back.
#[derive(Clone, Copy)]
pub struct Printout(pub Result<Results, Refusal>);

impl Printout {
    #[tactic(auto, using(crate::proofs::Lengths::printed_short))]
    pub fn of(bytes: &[u8]) -> Printout
        ensures text { printout_text result ≡ printed bytes.now }
        ensures short { length (printout_text result) ≤ 1024 }
    {
        Printout(results_of_bytes(bytes))
    }

    /// Writes the text from a position on; back comes the position behind it.
    pub fn put(&self, out: &mut [u8], at: usize) -> usize
        ensures { (out.new ≡ written out.old at (printout_text self.now)) × (result ≡ end_of at (printout_text self.now)) }
    {
        match self.0 {
            Ok(results) => results.put(out, at),
            Err(Refusal { cause, place }) => LastLine::Refused(cause, place).put(out, at),
        }
    }
}

/// What is printed of a sheet's bytes, from the buffer's first byte on; back comes its length.
pub fn print(bytes: &[u8], out: &mut [u8]) -> usize
    ensures { (out.new ≡ written out.old 0 (printed bytes.now)) × (result ≡ length (printed bytes.now)) × (result ≤ 1024) }
{
    Printout::of(bytes).put(out, 0)
}

fn premise_number(judged: Result<Option<u8>, Refusal>) -> u8
    ensures { result ≡ premise_number judged }
{
    judged.ok().flatten().unwrap_or(0)
}

// A sheet has at most 16 heads, with 64 result words.
fn results_of(sheet: &[u32]) -> Result<Results, Refusal>
    ensures { text_of result ≡ print_sheet sheet.now }
{
    let mut words = [0u32; 64];
    let report = replay_and_judge(sheet, &mut words);
    report.replayed?;
    Ok(Results {
        words,
        n: setting_at(sheet).n,
        premise: premise_number(report.judged),
    })
}

fn results_of_bytes(bytes: &[u8]) -> Result<Results, Refusal>
    ensures { text_of result ≡ printed bytes.now }
{
    if let Err(cause) = bytes_verdict(bytes) {
        return Err(Refusal { cause, place: 0 });
    }
    let words = big_endian(bytes);
    results_of(&words[..bytes.len() / 4])
}
