//! Premises 5 and 7 at the first correct close of a phase, 6 and 8 at the later ones: what is found of each phase, entry by entry.
#![tactic(auto)]

ghost use Rattle.std.specs.Prelude.{◌≡◌, true, false, List, [], ◌∷◌, ℕ, ◌≤◌, ◌<◌, min};
ghost use Rattle.protocol.specs.declared.HeadRow.{HeadRow};
ghost use Rattle.protocol.specs.declared.Kind.{Kind};
ghost use Rattle.protocol.specs.Types.{Accepted};
ghost use Rattle.protocol.specs.Base.{◌⇒◌, any, all_below};
ghost use Rattle.protocol.specs.Words.{is_correct, setting_at, entry_at};
ghost use Rattle.protocol.specs.Step.{has_mark};
ghost use Rattle.protocol.specs.Record.{votes};
ghost use Rattle.protocol.specs.Run.{History};
ghost use Rattle.protocol.specs.Premises.{delivery, closing, received, correct_all, correct_closes};
ghost use Rattle.sheet_state.specs.Arrays.{answer_at, event_at, Stands};
ghost use Rattle.judge_premise_3.specs.Starts.{start_times};
ghost use Rattle.judge_premises_5_to_8.specs.Closes.{receiver_sets, frame_reached, head_reached, phase_reached, findings_of};

use data_sets::{has_all, with_head};
use data_words::is_correct;
use judge_premise_3::StartTimes;
use protocol::{Entry, HeadRow, Kind, Mark, Marks, Setting};
use sheet_state::{frame_index, head_index};

/// By sender and serial, the heads that a vote or an adjust reached.
#[derive(Clone, Copy)]
pub struct Receivers(pub [u16; 512]);

impl Receivers {
    /// At an entry that delivers a vote or an adjust.
    pub fn delivered(&mut self, e: Entry)
        ensures { (ws : List ℕ) (i : ℕ) (s : History) (k : Kind) → e ≡ entry_at ws i → e.action ≡ delivery k → self.old.0 ≡ receiver_sets s
            → self.new.0 ≡ receiver_sets (event_at ws i s ∷ s) }
    {
        let j = frame_index(e.action, e.sender, e.serial);
        self.0[j] = with_head(self.0[j], e.head);
    }

    // Each frame of head p under the first serials, as many as the count says, reached all other correct heads.
    fn has_reached(&self, g: Setting, p: u8, a: u8, count: u32) -> bool
        ensures { result ≡ all_below (min count 16) (frame_reached g self.now.0 a p) }
    {
        for k in 0..count.min(16) as u8 {
            if !has_all(with_head(self.0[frame_index(a, p, k)], p), g.correct) {
                return false;
            }
        }
        true
    }
}

// "each start a correct head sent by then reached, by then, all correct heads": head p's did, if its marks say that it sent one.
fn own_start_reached(g: Setting, p: u8, marks: Marks, times: &StartTimes) -> bool
    ensures { (s : History) → times.now.0 ≡ start_times s → p < 16 → g.n ≤ 16
        → result ≡ (has_mark marks.0 1 ⇒ correct_all g (λ q. received 2 p 0 q s)) }
{
    !marks.has(Mark::StartSent) || times.reached(g, p)
}

// What premise 5 or 7 asks of a correct head p before the first correct close by entry. Until then a head "either took all of 1, 3 and 4
// or was delivered a vote" if it has a candidate, as after an early close, or took its vote turn.
fn head_reached(
    g: Setting,
    kind: Kind,
    p: u8,
    heads: &[HeadRow; 16],
    receivers: &Receivers,
    times: &StartTimes,
) -> bool
    ensures { (ws : List ℕ) (i : ℕ) (s : History) → Stands ws i s heads.now → g ≡ setting_at ws → receivers.now.0 ≡ receiver_sets s
        → times.now.0 ≡ start_times s → is_correct g p ≡ true → any (correct_closes g kind) s ≡ false → result ≡ head_reached g kind s p }
{
    let i = head_index(p);
    let marks = heads[i].marks;
    match kind {
        Kind::Votes => {
            ((heads[i].votes.choice != 0) | marks.has(Mark::VoteTurn))
                && own_start_reached(g, p, marks, times)
                && receivers.has_reached(g, p, 5, heads[i].votes.sent)
        }
        Kind::Adjusts => {
            (marks.has(Mark::AdjustTurn) | (heads[i].adjusts.early == 1))
                && receivers.has_reached(g, p, 8, heads[i].adjusts.sent)
        }
    }
}

// Premise 5 or 7 at the first correct close of the phase.
fn phase_reached(
    g: Setting,
    kind: Kind,
    heads: &[HeadRow; 16],
    receivers: &Receivers,
    times: &StartTimes,
) -> bool
    ensures { (ws : List ℕ) (i : ℕ) (s : History) → Stands ws i s heads.now → g ≡ setting_at ws → receivers.now.0 ≡ receiver_sets s
        → times.now.0 ≡ start_times s → any (correct_closes g kind) s ≡ false → result ≡ phase_reached g kind s }
{
    for p in 0..g.n {
        if is_correct(g, p) && !head_reached(g, kind, p, heads, receivers, times) {
            return false;
        }
    }
    true
}

/// What was found of a phase so far: whether premise 5 or 7 is kept, whether 6 or 8 is, whether no frame of the phase reached a correct
/// head after the first correct close, and whether a correct head has closed the phase.
#[derive(Clone, Copy)]
pub struct Findings {
    pub reached: bool,
    pub undisturbed: bool,
    pub in_time: bool,
    pub closed: bool,
}

impl Findings {
    /// Before the first entry.
    #[tactic(auto, unfolding(protocol::specs::Premises::none_between, protocol::specs::Premises::each))]
    pub fn new() -> Findings
        ensures { (g : Setting) (k : Kind) → result ≡ findings_of g [] k }
    {
        Findings {
            reached: true,
            undisturbed: true,
            in_time: true,
            closed: false,
        }
    }

    /// At an entry that delivers a frame of the phase.
    pub fn delivered(&mut self, g: Setting, e: Entry)
        ensures { (ws : List ℕ) (i : ℕ) (s : History) (k : Kind) → e ≡ entry_at ws i → e.action ≡ delivery k → self.old ≡ findings_of g s k
            → self.new ≡ findings_of g (event_at ws i s ∷ s) k }
    {
        self.in_time = self.in_time & !(is_correct(g, e.head) & self.closed);
    }

    /// At an entry with the action that closes the phase. Premise 5 or 7 is asked at the first correct close, 6 or 8 at the later ones;
    /// a head that has closed the phase early does not close it again.
    // Not inlined: it is seldom called, and the loop over the entries then keeps more in registers.
    #[inline(never)]
    pub fn close(
        &mut self,
        g: Setting,
        e: Entry,
        kind: Kind,
        heads: &[HeadRow; 16],
        receivers: &Receivers,
        times: &StartTimes,
    )
        ensures { (ws : List ℕ) (i : ℕ) (s : History) → Stands ws i s heads.now → g ≡ setting_at ws → e ≡ entry_at ws i → (answer_at ws i s).verdict ≡ Accepted
            → e.action ≡ closing kind → receivers.now.0 ≡ receiver_sets s → times.now.0 ≡ start_times s → self.old ≡ findings_of g s kind
            → self.new ≡ findings_of g (event_at ws i s ∷ s) kind }
    {
        if !is_correct(g, e.head) {
            return;
        }
        if heads[head_index(e.head)].phase(kind).early == 1 {
            return;
        }
        if self.closed {
            self.undisturbed = self.in_time & self.undisturbed;
            return;
        }
        self.closed = true;
        self.reached = phase_reached(g, kind, heads, receivers, times);
    }
}
