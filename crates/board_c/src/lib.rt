//! What a board written in C calls; include/daisarnica.h declares it. A head's record is its row of numbers in memory that the
//! caller lends, an action and a frame are arrays of numbers, and each cause is its number, 0 for none.
#![tactic(auto)]

mod numbers;

ghost use Rattle.std.specs.Prelude.{◌≡◌, ◌∷◌, []};
ghost use Rattle.protocol.specs.Counter.{counter_reading, counted_numbers};
ghost use Rattle.protocol.specs.Row.{record_in};
ghost use Rattle.protocol.specs.Causes.{verdict_number};
ghost use Rattle.protocol.specs.Board.{fresh_verdict, fresh_row, input_in, row_step, row_after, frame_numbers, row_verdict, result_if, correction_if};

use head_by_value::counter_reading;
use head_causes::row_verdict;
use head_ranges::{row_in_range, sized};
use head_result::result_numbers;
use head_row::fresh_row;
use head_step::act;
use numbers::{correction_of, frame_numbers, fresh_verdict, input_in};
use protocol::HeadRow;

/// Makes a fresh record of head own of n, of which at most f are faulty. A refusal leaves the memory as it was.
#[unsafe(no_mangle)]
pub extern "C" fn daisarnica_fresh(head: &mut HeadRow, n: u32, f: u32, own: u32) -> u32
    ensures { (result ≡ verdict_number (fresh_verdict n f own)) × (head.new ≡ fresh_row head.old n f own) }
{
    if let Err(c) = fresh_verdict(n, f, own) {
        return u32::from(c);
    }
    *head = fresh_row(n, f, own);
    0
}

/// Takes an action. The record becomes the one after it, or stays as it was if the action is refused.
#[unsafe(no_mangle)]
pub extern "C" fn daisarnica_action(
    head: &mut HeadRow,
    input: &[u32; 7],
    frame: &mut [u32; 5],
) -> u32
    ensures { (result ≡ verdict_number (row_step head.old (input_in input.now)).verdict)
        × (head.new ≡ row_after head.old (row_step head.old (input_in input.now)))
        × (frame.new ≡ frame_numbers (row_step head.old (input_in input.now)).frame) }
{
    sized(*head);
    let i = input_in(input);
    if let Err(c) = row_verdict(head, i) {
        *frame = [0; 5];
        return u32::from(c);
    }
    *frame = frame_numbers(act(head, i));
    0
}

/// Reads how the round ended: outcome, candidate, adjuster, adjustment, start reading.
#[unsafe(no_mangle)]
pub extern "C" fn daisarnica_result(head: &HeadRow, res: &mut [u32; 5]) -> u32
    ensures { (result ≡ verdict_number (row_verdict head.now))
        × (res.new ≡ result_if (row_verdict head.now) (record_in head.now)) }
{
    sized(*head);
    if row_in_range(head) {
        *res = result_numbers(head);
        0
    } else {
        *res = [0; 5];
        10
    }
}

/// Reads the correction: 0 unless the outcome is 2, and for a record outside its ranges.
#[unsafe(no_mangle)]
pub extern "C" fn daisarnica_correction(head: &HeadRow) -> i64
    ensures { result ≡ correction_if (row_verdict head.now) (record_in head.now) }
{
    sized(*head);
    if row_in_range(head) {
        correction_of(result_numbers(head))
    } else {
        0
    }
}

/// Turns a counter and its base into a reading.
#[unsafe(no_mangle)]
pub extern "C" fn daisarnica_reading(counter: u32, base: u32, reading: &mut u32) -> u32
    ensures { result ∷ 0 ∷ reading.new ∷ [] ≡ counted_numbers (counter_reading counter base) }
{
    match counter_reading(counter, base) {
        Ok(t) => {
            *reading = t.0;
            0
        }
        Err(c) => {
            *reading = 0;
            u32::from(c)
        }
    }
}
