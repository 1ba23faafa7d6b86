//! How many readings a head's row holds, and the median of its vote readings by counting ranks.
#![tactic(auto, unfolding(crate::specs::Readings::holds, crate::specs::Readings::held_in, crate::specs::Readings::readings_in, crate::specs::Ranks::least_from))]

ghost use Rattle.std.specs.Prelude.{◌≡◌, cond, ◌-◌, ◌≤◌, ◌<◌, eqb, length, min, take};
ghost use Rattle.protocol.specs.declared.HeadRecord.{HeadRecord};
ghost use Rattle.protocol.specs.Median.{ordered_at, median};
ghost use Rattle.protocol.specs.Step.{starts_held, vote_readings};
ghost use Rattle.head_row.specs.Promises.{Reads};
ghost use Rattle.protocol.proofs.Ranks.{bit, is_below};
ghost use Rattle.head_median.specs.Ranks.{covers, none, number_from, least_from};
ghost use Rattle.head_median.specs.Readings.{holds, held_in, readings_in};

use head_row::head_count;
use protocol::HeadRow;

// Above every reading. It stands for none where an Option would, since it is y − 1 at y = 0: so a test of y is one comparison,
// and a pass over the readings has no branch and takes several senders at once.
const NONE: u32 = u32::MAX;

// The reading of number y; NONE where y stands for none, and only there.
fn reading_of(y: u32) -> u32
    ensures { (result ≡ cond (eqb y 0) none (y - 1)) × (0 < y → result < none) }
{
    if y == 0 { NONE } else { y - 1 }
}

// 1 if y is the number of a reading below the bound, else 0.
fn is_below(y: u32, bound: u32) -> u32
    ensures { result ≡ bit (holds (is_below bound) y) }
{
    u32::from(reading_of(y) < bound)
}

#[tactic(auto, using(crate::proofs::Counts::held_next, crate::proofs::Counts::held_next_le), unfolding(crate::specs::Readings::held_in))]
// How many of the numbers are of readings below the bound.
fn readings_below(readings: &[u32], bound: u32) -> u32
    requires { length readings.now ≤ 16 }
    ensures { result ≡ held_in (is_below bound) readings.now (length readings.now) }
{
    let mut count = 0;
    for &y in readings {
        count += is_below(y, bound);
    }
    count
}

pub fn starts_held(row: &HeadRow) -> u32
    ensures { Reads starts_held row.now result }
{
    readings_below(&row.start_readings[..head_count(row.heads)], NONE)
}

pub fn votes_held(row: &HeadRow) -> u32
    ensures { Reads (λ (r : HeadRecord). length (vote_readings r r.n)) row.now result }
{
    readings_below(&row.vote_readings[..head_count(row.heads)], NONE)
}

#[tactic(auto, using(crate::proofs::Counts::stands_test))]
// Whether x is the number of a reading that stands at an index of the readings in order: those below it are no more than the
// index, those up to it are more.
fn stands_at(readings: &[u32], x: u32, index: u32) -> bool
    requires { length readings.now ≤ 16 }
    ensures { result ≡ holds (covers index (readings_in readings.now (length readings.now))) x }
{
    x != 0 && readings_below(readings, x - 1) <= index && index < readings_below(readings, x)
}

// The reading at an index of the readings in order; 0 beyond them.
fn reading_at(readings: &[u32], index: u32) -> u32
    requires { length readings.now ≤ 16 }
    ensures { (result ≡ ordered_at index (readings_in readings.now (length readings.now))) × (result < none) }
{
    for &x in readings {
        if stands_at(readings, x, index) {
            return reading_of(x);
        }
    }
    0
}

// The reading of number y if it is not below the bound, else NONE.
fn reading_from(y: u32, bound: u32) -> u32
    ensures { result ≡ cond (eqb y 0) none (number_from bound (y - 1)) }
{
    let z = reading_of(y);
    if z < bound { NONE } else { z }
}

#[tactic(auto, using(crate::proofs::Counts::least_next), unfolding(crate::specs::Readings::readings_in, crate::specs::Ranks::least_from))]
// The least of the readings that is not below the bound; NONE if there is no such one.
fn least_from(readings: &[u32], bound: u32) -> u32
    ensures { result ≡ least_from bound (readings_in readings.now (length readings.now)) }
{
    let mut least = NONE;
    for &y in readings {
        least = least.min(reading_from(y, bound));
    }
    least
}

/// The median of the vote readings; 0 where none is held. With an even count (document 02, No. 6) the upper middle one is the
/// lower one again, or the least above it, which one pass finds; their sum might pass 32 bits.
pub fn vote_median(row: &HeadRow) -> u32
    ensures { Reads (λ (r : HeadRecord). median (vote_readings r r.n)) row.now result }
{
    let readings = &row.vote_readings[..head_count(row.heads)];
    let k = readings_below(readings, NONE);
    if k == 0 {
        return 0;
    }
    let lower = reading_at(readings, (k - 1) / 2);
    if k % 2 == 1 {
        return lower;
    }
    let above = lower + 1;
    if k / 2 < readings_below(readings, above) {
        return lower;
    }
    let upper = least_from(readings, above);
    lower + (upper - lower) / 2
}
