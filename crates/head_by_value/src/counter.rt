// The board's counter.
ghost use Rattle.std.specs.Prelude.{◌≡◌};
ghost use Rattle.protocol.specs.Counter.{counter_reading};

use protocol::{Cause, Reading, TIME_LIMIT};

/// The reading of a counter whose base was base: the difference, wrapped to 32 bits, if it has 28 (else cause 11).
pub fn counter_reading(counter: u32, base: u32) -> Result<Reading, Cause>
    ensures { result ≡ counter_reading counter base }
{
    let t = std::num::wrapping_sub_u32(counter, base);
    if t < TIME_LIMIT {
        Ok(Reading(t))
    } else {
        Err(Cause::CounterTooFar)
    }
}
