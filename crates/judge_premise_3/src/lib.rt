//! Premise 3: at each entry that delivers a start, and at the one that confirms it.
#![tactic(auto)]

ghost use Rattle.std.specs.Prelude.{◌≡◌, not, ℕ, ◌+◌, ◌*◌, ◌%◌, ◌^◌, ◌<◌, ◌≤◌, ◌&&◌, List, ◌∷◌, slice_index};
ghost use Rattle.protocol.specs.declared.HeadRow.{HeadRow};
ghost use Rattle.protocol.specs.Types.{Accepted};
ghost use Rattle.protocol.specs.Words.{is_correct, setting_at, entry_at};
ghost use Rattle.protocol.specs.Run.{History};
ghost use Rattle.protocol.specs.Premises.{took, received, last_start, correct_all, start_within};
ghost use Rattle.sheet_state.specs.Arrays.{answer_at, event_at, Stands};
ghost use Rattle.judge_premise_3.specs.Starts.{start_times};

use data_words::is_correct;
use protocol::{Entry, HeadRow, Mark, Setting, TIME_LIMIT};
use sheet_state::head_index;

/// By sender and head, one more than the real time at which the sender's start last reached the head, 0 where it never did.
#[derive(Clone, Copy)]
pub struct StartTimes(pub [u32; 256]);

impl StartTimes {
    // What is kept of head p's start and head q.
    fn at(&self, p: u8, q: u8) -> u32
        ensures { result ≡ slice_index self.now.0 (p % 16 * 16 + q % 16) }
    {
        self.0[head_index(p) * 16 + head_index(q)]
    }

    // "was delivered earlier to every correct head, their last deliveries lie within the tightness": every two do if the earliest
    // and the latest do. A start that did not reach a correct head has 0 for its earliest.
    fn within(&self, g: Setting, v: u8) -> bool
        ensures { (s : History) → self.now.0 ≡ start_times s → v < 16 → g.n ≤ 16 → ((q : ℕ) → last_start s v q < 2 ^ 28)
            → result ≡ start_within g v s }
    {
        let mut first: u32 = TIME_LIMIT + 1;
        let mut last: u32 = 1;
        for q in 0..g.n {
            if is_correct(g, q) {
                let t = self.at(v, q);
                first = t.min(first);
                last = t.max(last);
            }
        }
        first != 0 && last <= first + u32::from(g.tightness)
    }

    /// "each start .. reached, by then, all correct heads": head v's did.
    pub fn reached(&self, g: Setting, v: u8) -> bool
        ensures { (s : History) → self.now.0 ≡ start_times s → v < 16 → g.n ≤ 16
            → result ≡ correct_all g (λ q. received 2 v 0 q s) }
    {
        for q in 0..g.n {
            if is_correct(g, q) & (self.at(v, q) == 0) {
                return false;
            }
        }
        true
    }

    /// At an entry that delivers a start: "and none reaches a correct head later".
    pub fn delivered(&mut self, g: Setting, e: Entry, heads: &[HeadRow; 16]) -> bool
        ensures { (ws : List ℕ) (i : ℕ) (s : History) → Stands ws i s heads.now → g ≡ setting_at ws → e ≡ entry_at ws i
            → (answer_at ws i s).verdict ≡ Accepted → e.action ≡ 2 → self.old.0 ≡ start_times s
            → (self.new.0 ≡ start_times (event_at ws i s ∷ s)) × (result ≡ not (is_correct g e.head && took 3 e.sender s)) }
    {
        let p = head_index(e.sender);
        self.0[p * 16 + head_index(e.head)] = e.time.0.wrapping_add(1);
        !(is_correct(g, e.head) & heads[p].marks.has(Mark::Confirmed))
    }

    /// "A start confirmed by any head was delivered earlier to every correct head"
    // Not inlined: it is seldom called, and the loop over the entries then keeps more in registers.
    #[inline(never)]
    pub fn confirmed(&self, g: Setting, e: Entry) -> bool
        ensures { (ws : List ℕ) (i : ℕ) (s : History) (heads : List HeadRow) → Stands ws i s heads → g ≡ setting_at ws → e ≡ entry_at ws i
            → (answer_at ws i s).verdict ≡ Accepted → self.now.0 ≡ start_times s → result ≡ start_within g e.head s }
    {
        self.within(g, e.head)
    }
}
