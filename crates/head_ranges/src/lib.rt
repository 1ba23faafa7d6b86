//! Whether a row of numbers holds a record in its ranges.
#![tactic(auto, unfolding(crate::specs::Parts::spare_fits, crate::specs::Parts::counted_limit, crate::specs::Parts::greatest_vote, crate::specs::Parts::beyond))]

ghost use Rattle.std.specs.Prelude.{◌≡◌, cond, ◌&&◌, ◌+◌, ◌%◌, ◌≤◌, ◌<◌, ltb, eqb, is_some};
ghost use Rattle.protocol.specs.Record.{votes, adjusts, mark_number, sent_in_range, weight_of};
ghost use Rattle.protocol.specs.Row.{number_in, record_in, row_fits, row_in_range};
ghost use Rattle.head_ranges.specs.Parts.{spare_fits, own_fits, times_fit, phase_fits, marks_allowed, senders_in_range, exceeds, counted_limit, greatest_vote, beyond, Sized};

use data_words::{heads_fit, is_time};
use protocol::{HeadRow, Kind, Mark, PhaseRow, TIME_LIMIT};

// 1 if b exceeds a, else 0.
fn one_if_less(a: u32, b: u32) -> u32
    ensures { (result ≡ exceeds a b) × (result ≤ 1) }
{
    u32::from(a < b)
}

// The lower six marks are any; the one for a candidate stands exactly with a candidate, and there is no other.
fn marks_agree(m: u32, candidate: u32) -> bool
    ensures { result ≡ eqb m (m % 64 + mark_number (is_some (number_in candidate)) 64) }
{
    m / 64 == u32::from(candidate != 0)
}

#[tactic(auto, using(crate::proofs::Numbers::spare_zero), unfolding(crate::specs::Parts::spare_fits))]
// The marks of early closes are 0 or 1, and the four spare numbers are 0. They are joined by `|`: with `all` each action takes 3
// instructions more.
fn spare_fits(row: &HeadRow) -> bool
    ensures { result ≡ spare_fits row.now }
{
    row.votes.early < 2
        && row.adjusts.early < 2
        && (row.spare[0] | row.spare[1] | row.spare[2] | row.spare[3]) == 0
}

#[tactic(auto, using(crate::proofs::Numbers::marks_of_row), unfolding(protocol::specs::Row::row_fits, crate::specs::Parts::spare_fits))]
fn row_fits(row: &HeadRow) -> bool
    ensures { result ≡ row_fits row.now }
{
    marks_agree(row.marks.0, row.votes.choice) && spare_fits(row)
}

fn own_fits(row: &HeadRow) -> bool
    ensures { result ≡ own_fits row.now }
{
    heads_fit(row.heads, row.faulty) && row.own < row.heads
}

// The adjustment is 0 without an adjuster.
fn times_fit(row: &HeadRow) -> bool
    ensures { result ≡ times_fit row.now }
{
    is_time(row.last) && is_time(row.adjustment) && (row.adjusts.choice != 0 || row.adjustment == 0)
}

// The number of frames sent for a choice, which is one more than itself or 0 for none.
fn sent_fits(phase: &PhaseRow, n: u32) -> bool
    ensures { result ≡ sent_in_range n (number_in phase.now.choice) phase.now.sent }
{
    if phase.choice == 0 {
        return phase.sent == 0;
    }
    phase.choice <= n && 1 <= phase.sent && phase.sent - 1 <= n - phase.choice
}

// A phase; closed early only with its close mark, whose weight is given.
fn phase_fits(row: &HeadRow, kind: Kind, close: Mark) -> bool
    ensures { result ≡ phase_fits kind row.now (weight_of close) }
{
    let phase = row.phase(kind);
    sent_fits(phase, row.heads) && (phase.early != 1 || row.marks.has(close))
}

// Confirmed only if sent, turn only if confirmed, adjust turn or close only after vote close: each by two marks or three,
// which stand side by side.
fn marks_fit(m: u32) -> bool
    ensures { result ≡ marks_allowed m }
{
    m % 4 != 2 && m / 2 % 4 != 2 && (m / 16 % 4 == 0 || m / 8 % 2 == 1)
}

// The greatest number that may be kept of sender p: 0, none, from n on.
fn greatest(n: u32, p: u32, x: u32) -> u32
    ensures { result ≡ cond (ltb p n) x 0 }
{
    if p < n { x } else { 0 }
}

// The greatest vote reading of another sender whose latest vote is as the candidate: where both are none, none counts.
fn counted_limit(candidate: u32) -> u32
    ensures { result ≡ counted_limit candidate }
{
    if candidate == 0 { 0 } else { TIME_LIMIT }
}

// The greatest that may be kept of sender p as its vote reading. Document 02, No. 5: "A record that keeps another sender's vote
// reading without that sender's latest vote naming the candidate is outside its ranges". All is read before it is tested, so
// that the test is no branch.
fn greatest_vote(row: &HeadRow, p: u32) -> u32
    requires { p < 16 }
    ensures { result ≡ greatest_vote row.now p }
{
    let own = row.own;
    let candidate = row.votes.choice;
    let latest = row.votes.latest[p as usize];
    let reading = greatest(row.heads, p, TIME_LIMIT);
    let counted = greatest(row.heads, p, counted_limit(candidate));
    if p == own {
        reading
    } else if latest == candidate {
        counted
    } else {
        0
    }
}

// How many of the six numbers kept of sender p are greater than the greatest.
fn numbers_beyond(row: &HeadRow, p: u32) -> u32
    requires { p < 16 }
    ensures { result ≡ beyond row.now p }
{
    let i = p as usize;
    let reading = greatest(row.heads, p, TIME_LIMIT);
    let vote = greatest_vote(row, p);
    let serial = greatest(row.heads, p, 16);
    let name = greatest(row.heads, p, row.heads);
    one_if_less(reading, row.start_readings[i])
        + one_if_less(vote, row.vote_readings[i])
        + (one_if_less(serial, row.votes.serials[i]) + one_if_less(serial, row.adjusts.serials[i]))
        + (one_if_less(name, row.votes.latest[i]) + one_if_less(name, row.adjusts.latest[i]))
}

// A sum without branches, which takes several senders at once.
fn senders_in_range(row: &HeadRow) -> bool
    ensures { result ≡ senders_in_range (record_in row.now) }
{
    let mut bad: u32 = 0;
    for p in 0..16 {
        bad += numbers_beyond(row, p);
    }
    bad == 0
}

// What a head has of itself: its row's own marks, its bench, its times.
fn head_in_range(row: &HeadRow) -> bool
    ensures { result ≡ (row_fits row.now && (own_fits row.now && times_fit row.now)) }
{
    row_fits(row) && own_fits(row) && times_fit(row)
}

fn phases_in_range(row: &HeadRow) -> bool
    ensures { result ≡ (phase_fits votes row.now 8 && (phase_fits adjusts row.now 32 && marks_allowed row.now.marks.0)) }
{
    phase_fits(row, Kind::Votes, Mark::VoteClose)
        && phase_fits(row, Kind::Adjusts, Mark::AdjustClose)
        && marks_fit(row.marks.0)
}

#[tactic(auto, using(crate::proofs::Parts::in_parts))]
/// Whether a row holds a record in its ranges (else cause 10).
pub fn row_in_range(row: &HeadRow) -> bool
    ensures { result ≡ row_in_range row.now }
{
    head_in_range(row) && phases_in_range(row) && senders_in_range(row)
}

/// The lengths of a row's arrays, which a reference to one does not say by itself. Nothing of it is left in the machine code.
pub fn sized(row: HeadRow)
    ensures { Sized row }
{}
