//! One pass over a sheet's entries: the run of the heads, and what the premises say of it.
#![tactic(auto)]

ghost use Rattle.std.specs.Prelude.{◌≡◌, true, not, List, ℕ, ◌+◌, ◌-◌, ◌*◌, ◌≤◌, ◌<◌, length, get_or, MatchResult, Ok};
ghost use Rattle.protocol.specs.declared.Setting.{Setting};
ghost use Rattle.protocol.specs.Words.{setting_at, first_word_fits};
ghost use Rattle.protocol.specs.Run.{History, stopped, run_of, run_first};
ghost use Rattle.protocol.specs.Premises.{premises};
ghost use Rattle.protocol.specs.OpenTable.{open_actions};
ghost use Rattle.judge_run.specs.Pass.{Keeps, Found, Passes, JudgedAt};
ghost use Rattle.judge_run.specs.Where.{IsAskedAtEntries, TellsWhere};

use judge_end::{first_broken, premise_1, premise_4};
use judge_entry::Judge;
use protocol::{HeadRow, Refusal, Setting};
use sheet_entry::{entry_verdict, take_entry};
use sheet_open::open_actions;
use sheet_state::fresh_heads;
use sheet_words::{entry_count, read_entry, setting_at, sheet_verdict};

/// A pass so far: the last real time, the judge, the heads' rows, and what each vote and adjust that was sent carries.
#[derive(Clone, Copy)]
pub struct Pass {
    pub setting: Setting,
    pub time: u32,
    pub judge: Judge,
    pub choices: [u8; 512],
    pub heads: [HeadRow; 16],
    pub carried: [u32; 512],
}

impl Pass {
    /// Before the first entry.
    pub fn new(g: Setting) -> Pass
        ensures { (ws : List ℕ) → first_word_fits (get_or ws 0 0) ≡ true → g ≡ setting_at ws → Keeps ws 0 result }
    {
        Pass {
            setting: g,
            time: 0,
            judge: Judge::new(),
            choices: [0; 512],
            heads: fresh_heads(g),
            carried: [0; 512],
        }
    }

    // "entry by entry 6 to 9": takes entry i of an accepted sheet, unless it is refused. The table of open actions is lent.
    fn take(&mut self, sheet: &[u32], i: usize, table: &[u8; 1280]) -> Result<(), Refusal>
        requires { (2 + 3 * i + 2 < length sheet.now) × (length sheet.now ≤ 12290) × Keeps sheet.now i self.old × (table.now ≡ open_actions) }
        ensures { MatchResult result (λ _. Keeps sheet.now (i + 1) self.new) (λ r. run_of sheet.now (i + 1) ≡ stopped r.cause r.place) }
    {
        let r = read_entry(sheet, self.setting.n, i);
        let e = r.entry;
        match entry_verdict(e, r.fits, self.time, table, &self.heads) {
            Err(cause) => Err(Refusal {
                cause,
                place: 2 + 3 * i,
            }),
            Ok(()) => {
                self.judge.ask(self.setting, e, &self.heads);
                take_entry(e, &mut self.heads, &mut self.choices, &mut self.carried);
                self.judge.keep_drift(self.setting, e);
                self.time = e.time.0;
                Ok(())
            }
        }
    }

    // The first broken premise after the last entry.
    fn first_broken(&self) -> Option<u8>
        ensures { JudgedAt self.now.setting self.now.heads self.now.judge (Ok result) }
    {
        let judge = &self.judge;
        first_broken(&[
            premise_1(self.setting),
            judge.steady,
            judge.in_time,
            premise_4(self.setting, &self.heads),
            judge.votes.reached,
            judge.votes.undisturbed,
            judge.adjusts.reached,
            judge.adjusts.undisturbed,
        ])
    }

    // Whether a premise that is asked at entries is broken by now. Premises go by their numbers, which are printed and, in C, returned.
    fn is_broken(&self, premise: u8) -> bool
        ensures { (g : Setting) (s : History) → Found g s self.now.judge → IsAskedAtEntries premise → result ≡ not (get_or (premises g s) (premise - 1) true) }
    {
        let judge = &self.judge;
        match premise {
            2 => !judge.steady,
            3 => !judge.in_time,
            5 => !judge.votes.reached,
            6 => !judge.votes.undisturbed,
            7 => !judge.adjusts.reached,
            8 => !judge.adjusts.undisturbed,
            _ => false,
        }
    }

    /// The judge's answer of the first count entries of an accepted sheet.
    pub fn run(&mut self, sheet: &[u32], count: usize) -> Result<Option<u8>, Refusal>
        requires { (2 + 3 * count ≤ length sheet.now) × (length sheet.now ≤ 12290) × Keeps sheet.now 0 self.old }
        ensures { Passes (setting_at sheet.now) (run_of sheet.now count) result self.new.heads }
    {
        let table = open_actions();
        for i in 0..count {
            self.take(sheet, i, &table)?;
        }
        Ok(self.first_broken())
    }

    /// The index of the entry, among the first count of an accepted sheet, at which a premise was broken.
    pub fn broken_at(&mut self, sheet: &[u32], count: usize, premise: u8) -> usize
        requires { (2 + 3 * count ≤ length sheet.now) × (length sheet.now ≤ 12290) × Keeps sheet.now 0 self.old }
        ensures { TellsWhere (setting_at sheet.now) (run_of sheet.now count) premise result }
    {
        let table = open_actions();
        for i in 0..count {
            match self.take(sheet, i, &table) {
                Err(_) => return 0,
                Ok(()) => {
                    if self.is_broken(premise) {
                        return i;
                    }
                }
            }
        }
        count
    }
}

/// The run of a sheet's first k entries, or of all of them where it has fewer: causes 1 to 4, then entry by entry 6 to 9.
pub fn run(sheet: &[u32], k: usize, heads: &mut [HeadRow; 16]) -> Result<Option<u8>, Refusal>
    ensures { Passes (setting_at sheet.now) (run_first sheet.now k) result heads.new }
{
    match sheet_verdict(sheet) {
        Err(cause) => Err(Refusal { cause, place: 0 }),
        Ok(()) => {
            let mut pass = Pass::new(setting_at(sheet));
            let judged = pass.run(sheet, k.min(entry_count(sheet)));
            *heads = pass.heads;
            judged
        }
    }
}
