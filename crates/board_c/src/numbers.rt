// What a board written in C gives and gets, in numbers.
ghost use Rattle.std.specs.Prelude.{◌≡◌, cond, ltb};
ghost use Rattle.protocol.specs.Board.{fresh_verdict, input_in};
ghost use Rattle.board_c.specs.Numbers.{AreNumbers, IsCorrection};

use data_values::difference;
use data_words::heads_fit;
use head_row::Sent;
use protocol::{Cause, Input};

/// Cause 3 if n or f is against the first word's rules, 6 if own is not below n.
pub fn fresh_verdict(n: u32, f: u32, own: u32) -> Result<(), Cause>
    ensures { result ≡ fresh_verdict n f own }
{
    if !heads_fit(n, f) {
        return Err(Cause::BadFirstWord);
    }
    if own < n {
        Ok(())
    } else {
        Err(Cause::BadEntry)
    }
}

fn action_in(action: u32, none: u32) -> u32
    ensures { result ≡ cond (ltb none 2) action 10 }
{
    if none < 2 { action } else { 10 }
}

/// A mark that is neither 0 nor 1 makes the number of no action.
pub fn input_in(xs: &[u32; 7]) -> Input
    ensures { result ≡ input_in xs.now }
{
    Input {
        action: action_in(xs[0], xs[6]),
        reading: xs[1],
        sender: xs[2],
        serial: xs[3],
        choice: xs[4],
        carried: xs[5],
        none: xs[6] == 1,
    }
}

/// A frame as C has it: a vote's reading and the mark "none" apart.
pub fn frame_numbers(s: Sent) -> [u32; 5]
    ensures { AreNumbers s result }
{
    if s.kind == 5 {
        if s.carried == 0 {
            return [5, s.serial, s.choice, 0, 1];
        }
        return [5, s.serial, s.choice, s.carried - 1, 0];
    }
    [s.kind, s.serial, s.choice, s.carried, 0]
}

/// The correction by the numbers of a result.
pub fn correction_of(x: [u32; 5]) -> i64
    ensures { IsCorrection x result }
{
    if x[0] == 2 { difference(x[3], x[4]) } else { 0 }
}
