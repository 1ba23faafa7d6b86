//! Where a premise was broken: the pass of replay and judge, up to the first entry at which the premise's test fails.
#![tactic(auto)]

ghost use Rattle.protocol.specs.Words.{setting_at};
ghost use Rattle.protocol.specs.Run.{run_sheet};
ghost use Rattle.judge_run.specs.Where.{TellsWhere};

use judge_run::Pass;
use sheet_words::{entry_count, setting_at, sheet_verdict};

/// The index of the entry at which a premise of an accepted sheet was broken.
pub fn broken_at(sheet: &[u32], premise: u8) -> usize
    ensures { TellsWhere (setting_at sheet.now) (run_sheet sheet.now) premise result }
{
    match sheet_verdict(sheet) {
        Err(_) => 0,
        Ok(()) => {
            let mut pass = Pass::new(setting_at(sheet));
            pass.broken_at(sheet, entry_count(sheet), premise)
        }
    }
}
