//! The lines that the programs print, as values that write themselves into a lent buffer from a position on: document 01, "The bench
//! sheet, and its neighbours". They have no `impl Display`: its contract speaks of the text only where `fmt` succeeds, so it would let
//! through a line that is never written.
#![tactic(auto)]

ghost use Rattle.std.specs.Prelude.{◌≡◌, [], ◌∷◌, ◌++◌};
ghost use Rattle.protocol.specs.Program.{decimal, line, head_lines, broken_line};
ghost use Rattle.print_text.specs.Written.{written, end_of};
ghost use Rattle.print_lines.specs.Lines.{head_text, head_line_of, last_text, result_lines};

use print_text::{put, put_decimal, put_difference, put_text};
use protocol::{Cause, TIME_LIMIT};
use sheet_results::result_word;

// "One blank stands between fields"; each line ends with a newline
const BLANK: u8 = 32;

pub const NEWLINE: u8 = 10;

/// A field, and the blank behind it.
pub fn put_field(x: u64, out: &mut [u8], at: usize) -> usize
    ensures { (out.new ≡ written out.old at (decimal x ++ (32 ∷ []))) × (result ≡ end_of at (decimal x ++ (32 ∷ []))) }
{
    let p = put_decimal(out, at, x);
    put(out, p, BLANK)
}

// The last field, and the newline behind it.
fn put_last(x: u64, out: &mut [u8], at: usize) -> usize
    ensures { (out.new ≡ written out.old at (line (decimal x ∷ []))) × (result ≡ end_of at (line (decimal x ∷ []))) }
{
    let p = put_decimal(out, at, x);
    put(out, p, NEWLINE)
}

/// How the round ended for a head.
#[derive(Clone, Copy, Debug, PartialEq, Eq)]
pub struct HeadLine {
    pub head: u8,
    pub outcome: u8,
    pub candidate: u8,
    pub adjuster: u8,
    pub adjustment: u32,
    pub start: u32,
}

impl HeadLine {
    /// Head q's, read off the result words.
    #[tactic(auto, unfolding(crate::specs::Lines::head_text, crate::specs::Lines::head_line_of, protocol::specs::Claim::ending_in_words))]
    pub fn of(results: &[u32], q: u8) -> HeadLine
        ensures { head_text result ≡ head_line_of results.now q }
    {
        let w = result_word(results, q, 0);
        HeadLine {
            head: q,
            outcome: ((w >> 24) % 16) as u8,
            candidate: ((w >> 16) % 16) as u8,
            adjuster: ((w >> 12) % 16) as u8,
            adjustment: result_word(results, q, 1) % TIME_LIMIT,
            start: result_word(results, q, 2) % TIME_LIMIT,
        }
    }

    /// Writes the line from a position on: "per head: head, outcome, candidate, adjuster, adjustment, start reading, correction"
    pub fn put(self, out: &mut [u8], at: usize) -> usize
        ensures { (out.new ≡ written out.old at (head_text self)) × (result ≡ end_of at (head_text self)) }
    {
        let p = put_field(self.head as u64, out, at);
        let p = put_field(self.outcome as u64, out, p);
        let p = put_field(self.candidate as u64, out, p);
        let p = put_field(self.adjuster as u64, out, p);
        let p = put_field(self.adjustment as u64, out, p);
        let p = put_field(self.start as u64, out, p);
        let p = put_difference(out, p, self.adjustment, self.start);
        put(out, p, NEWLINE)
    }
}

/// The line behind the heads' lines, or the only one of a sheet that is turned back.
#[derive(Clone, Copy, Debug, PartialEq, Eq)]
pub enum LastLine {
    Premises(u8),
    BrokenAtEnd(u8),
    BrokenAt(u8, usize),
    Refused(Cause, usize),
}

impl LastLine {
    /// Of a broken premise: premises 1 and 4 are asked at the end, the others at an entry.
    #[tactic(auto, unfolding(protocol::specs::Program::broken_line))]
    pub fn broken(premise: u8, entry: usize) -> LastLine
        ensures { last_text result ≡ broken_line premise entry }
    {
        match premise {
            1 | 4 => LastLine::BrokenAtEnd(premise),
            _ => LastLine::BrokenAt(premise, entry),
        }
    }

    /// Writes the line from a position on: "`premises` and the first broken premise or 0"; "or only `refused`, number, place"
    pub fn put(self, out: &mut [u8], at: usize) -> usize
        ensures { (out.new ≡ written out.old at (last_text self)) × (result ≡ end_of at (last_text self)) }
    {
        match self {
            LastLine::Premises(premise) => {
                let p = put_text(out, at, b"premises ");
                put_last(premise as u64, out, p)
            }
            LastLine::BrokenAtEnd(premise) => {
                let p = put_text(out, at, b"premises ");
                let p = put_field(premise as u64, out, p);
                put_text(out, p, b"end\n")
            }
            LastLine::BrokenAt(premise, entry) => {
                let p = put_text(out, at, b"premises ");
                let p = put_field(premise as u64, out, p);
                let p = put_text(out, p, b"entry ");
                put_last(entry as u64, out, p)
            }
            LastLine::Refused(cause, place) => {
                let p = put_text(out, at, b"refused ");
                let p = put_field(u32::from(cause) as u64, out, p);
                put_last(place as u64, out, p)
            }
        }
    }
}

// The lines of the first n heads.
fn put_head_lines(results: &[u32], n: u8, out: &mut [u8], at: usize) -> usize
    ensures { (out.new ≡ written out.old at (head_lines results.now n)) × (result ≡ end_of at (head_lines results.now n)) }
{
    let mut p = at;
    for q in 0..n {
        p = HeadLine::of(results, q).put(out, p);
    }
    p
}

/// The heads' lines, and the line of the premises.
pub fn put_results(results: &[u32], n: u8, premise: u8, out: &mut [u8], at: usize) -> usize
    ensures { (out.new ≡ written out.old at (result_lines results.now n premise)) × (result ≡ end_of at (result_lines results.now n premise)) }
{
    let p = put_head_lines(results, n, out, at);
    LastLine::Premises(premise).put(out, p)
}

/// What a run leaves that is not turned back: the result words of n heads, and the first broken premise or 0.
#[derive(Clone, Copy)]
pub struct Results {
    pub words: [u32; 64],
    pub n: u8,
    pub premise: u8,
}

impl Results {
    /// Writes the lines from a position on; back comes the position behind them.
    pub fn put(&self, out: &mut [u8], at: usize) -> usize
        ensures { (out.new ≡ written out.old at (result_lines self.now.words self.now.n self.now.premise)) × (result ≡ end_of at (result_lines self.now.words self.now.n self.now.premise)) }
    {
        put_results(&self.words, self.n, self.premise, out, at)
    }
}
