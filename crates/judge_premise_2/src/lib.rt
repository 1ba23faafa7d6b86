//! Premise 2 of every two entries of a head, by two differences that each entry has by itself: of e after d the premise says
//! that neither difference of e is more than 1,000,000 above that of d. So the least of each is all to be kept.
#![tactic(auto)]

ghost use Rattle.std.specs.Prelude.{◌≡◌};
ghost use Rattle.judge_premise_2.specs.Drift.{drift_of, least_of, stays_steady};

use protocol::Entry;

// Millionths in one: drift is in parts per million.
const MILLION: i64 = 1000000;

/// How far a head's clock has run ahead of real time and how far it has fallen behind, in millionths of a microsecond, each less what
/// drift allows since real time 0 and less a slack.
#[derive(Clone, Copy)]
pub struct Drift {
    pub gain: i64,
    pub loss: i64,
}

impl Drift {
    /// At an entry of the head.
    pub fn of(drift: u16, e: Entry, slack: u32) -> Drift
        ensures { result ≡ drift_of drift e slack }
    {
        let t = e.time.0 as i64;
        let ahead = MILLION * (e.reading.0 as i64 - t);
        let allowed = drift as i64 * t;
        Drift {
            gain: ahead - allowed - slack as i64,
            loss: 0 - ahead - allowed - slack as i64,
        }
    }

    /// The least of each.
    pub fn least(self, other: Drift) -> Drift
        ensures { result ≡ least_of self other }
    {
        Drift {
            gain: self.gain.min(other.gain),
            loss: self.loss.min(other.loss),
        }
    }

    /// Whether an entry of a correct head keeps premise 2 with the head's entries before it, of which these are the least.
    pub fn stays_steady(self, correct: bool, drift: u16, e: Entry) -> bool
        ensures { result ≡ stays_steady correct drift e self }
    {
        let now = Drift::of(drift, e, 1000000);
        !correct | ((now.gain <= self.gain) & (now.loss <= self.loss))
    }
}
