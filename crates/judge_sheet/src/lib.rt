//! The replay of a run sheet and the judge of the eight premises, by one pass over its entries; and what holds of a sheet that
//! keeps them all.
#![tactic(auto)]

ghost use Rattle.std.specs.Prelude.{◌≡◌, ◌≤◌};
ghost use Rattle.protocol.specs.Results.{replay};
ghost use Rattle.protocol.specs.Premises.{judge};
ghost use Rattle.protocol.specs.Claim.{Agrees, AgreesInWords};
ghost use Rattle.judge_sheet.specs.Replays.{Replays};

use judge_run::Pass;
use protocol::{Cause, HeadRow, Refusal, Report};
use sheet_results::{WORDS_PER_HEAD, write_words};
use sheet_words::{entry_count, setting_at, sheet_verdict};

// "Sheet order: 1 to 5, then entry by entry 6 to 9": cause 5, then what the pass answered; else the result words.
fn replay_of(
    judged: Result<Option<u8>, Refusal>,
    n: u8,
    heads: &[HeadRow; 16],
    out: &mut [u32],
) -> Result<(), Refusal>
    requires { n ≤ 16 }
    ensures { Replays judged n heads.now out.old result out.new }
{
    if out.len() < WORDS_PER_HEAD * n as usize {
        return Err(Refusal {
            cause: Cause::ShortBuffer,
            place: 0,
        });
    }
    match judged {
        Err(refusal) => Err(refusal),
        Ok(_) => {
            write_words(out, n, heads);
            Ok(())
        }
    }
}

/// Replays a sheet into a lent buffer, and judges it. Of a sheet that keeps all premises the third point holds of the words that
/// are left in the buffer, unless cause 5 turned the replay back.
pub fn replay_and_judge(sheet: &[u32], out: &mut [u32]) -> Report
    ensures { (result.replayed ≡ (replay sheet.now out.old).answer) × (result.judged ≡ judge sheet.now) × (out.new ≡ (replay sheet.now out.old).buffer) × AgreesInWords sheet.now result out.new }
{
    match sheet_verdict(sheet) {
        Err(cause) => {
            let refusal = Refusal { cause, place: 0 };
            Report {
                replayed: Err(refusal),
                judged: Err(refusal),
            }
        }
        Ok(()) => {
            let g = setting_at(sheet);
            let mut pass = Pass::new(g);
            let judged = pass.run(sheet, entry_count(sheet));
            let replayed = replay_of(judged, g.n, &pass.heads, out);
            Report { replayed, judged }
        }
    }
}

pub fn replay(sheet: &[u32], out: &mut [u32]) -> Result<(), Refusal>
    ensures { (result ≡ (replay sheet.now out.old).answer) × (out.new ≡ (replay sheet.now out.old).buffer) }
{
    let report = replay_and_judge(sheet, out);
    report.replayed
}

/// "The judge, which has no result buffer, tests the same without 5": the first broken premise, or the refusal. Of a sheet that
/// keeps all premises the third point holds.
pub fn judge(sheet: &[u32]) -> Result<Option<u8>, Refusal>
    ensures { (result ≡ judge sheet.now) × Agrees sheet.now result }
{
    let mut none = [0u32; 1];
    let report = replay_and_judge(sheet, &mut none);
    report.judged
}
