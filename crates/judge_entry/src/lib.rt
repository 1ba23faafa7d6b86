//! What the judge keeps from entry to entry, and what the premises say at an accepted entry, on the heads' rows before it.
#![tactic(auto)]

ghost use Rattle.std.specs.Prelude.{◌≡◌, ◌&&◌, List, [], ◌∷◌, ℕ};
ghost use Rattle.protocol.specs.declared.HeadRow.{HeadRow};
ghost use Rattle.protocol.specs.Types.{Accepted};
ghost use Rattle.protocol.specs.Words.{setting_at, entry_at};
ghost use Rattle.protocol.specs.Run.{History};
ghost use Rattle.protocol.specs.Premises.{premise2};
ghost use Rattle.sheet_state.specs.Arrays.{answer_at, event_at, Stands};
ghost use Rattle.judge_entry.specs.State.{drifts_of, keeps_premise_2, JudgeState, judge_of};

use data_words::is_correct;
use judge_premise_2::Drift;
use judge_premise_3::StartTimes;
use judge_premises_5_to_8::{Findings, Receivers};
use protocol::{Entry, HeadRow, Kind, Setting};
use sheet_state::head_index;

// Above any gain and any loss, which are below 2⁶².
const NO_DRIFT: Drift = Drift {
    gain: 4611686018427387904,
    loss: 4611686018427387904,
};

/// Whom the starts reached, and whether premise 3 is kept; by head, the least gain and loss of its entries, and whether premise 2 is;
/// whom the votes and the adjusts reached, and what was found of the two phases.
#[derive(Clone, Copy)]
pub struct Judge {
    pub times: StartTimes,
    pub in_time: bool,
    pub drifts: [Drift; 16],
    pub steady: bool,
    pub receivers: Receivers,
    pub votes: Findings,
    pub adjusts: Findings,
}

impl Judge {
    /// Before the first entry.
    pub fn new() -> Judge
        ensures { (g : Setting) → result ≡ judge_of g [] }
    {
        Judge {
            times: StartTimes([0; 256]),
            in_time: true,
            drifts: [NO_DRIFT; 16],
            steady: true,
            receivers: Receivers([0; 512]),
            votes: Findings::new(),
            adjusts: Findings::new(),
        }
    }

    /// Premise 2 of an accepted entry and those before it. It needs no rows, and asked last it costs the fewest instructions.
    pub fn keep_drift(&mut self, g: Setting, e: Entry)
        ensures others { self.new ≡ record self.old { drifts = self.new.drifts; steady = self.new.steady } }
        ensures premise_2 { (ws : List ℕ) (i : ℕ) (s : History) (heads : List HeadRow) → Stands ws i s heads → g ≡ setting_at ws → e ≡ entry_at ws i → (answer_at ws i s).verdict ≡ Accepted
            → self.old.drifts ≡ drifts_of g s
            → (self.new.drifts ≡ drifts_of g (event_at ws i s ∷ s)) × (self.new.steady ≡ (keeps_premise_2 g e s && self.old.steady))
            × ((keeps_premise_2 g e s && premise2 g s) ≡ premise2 g (event_at ws i s ∷ s)) }
    {
        let h = head_index(e.head);
        let before = self.drifts[h];
        self.drifts[h] = before.least(Drift::of(g.drift, e, 0));
        self.steady = before.stays_steady(is_correct(g, e.head), g.drift, e) & self.steady;
    }

    /// The other premises at an accepted entry, on the heads' rows before it. Its action is a number, as `Entry` has it.
    pub fn ask(&mut self, g: Setting, e: Entry, heads: &[HeadRow; 16])
        ensures premise_2 { (self.new.drifts ≡ self.old.drifts) × (self.new.steady ≡ self.old.steady) }
        ensures others { (ws : List ℕ) (i : ℕ) (s : History) → Stands ws i s heads.now → g ≡ setting_at ws → e ≡ entry_at ws i → (answer_at ws i s).verdict ≡ Accepted
            → JudgeState g s self.old → JudgeState g (event_at ws i s ∷ s) self.new }
    {
        match e.action {
            2 => {
                self.in_time = self.times.delivered(g, e, heads) & self.in_time;
            }
            3 => {
                self.in_time = self.times.confirmed(g, e) & self.in_time;
            }
            5 => {
                self.receivers.delivered(e);
                self.votes.delivered(g, e);
            }
            6 => {
                self.votes
                    .close(g, e, Kind::Votes, heads, &self.receivers, &self.times);
            }
            8 => {
                self.receivers.delivered(e);
                self.adjusts.delivered(g, e);
            }
            9 => {
                self.adjusts
                    .close(g, e, Kind::Adjusts, heads, &self.receivers, &self.times);
            }
            _ => {}
        }
    }
}
