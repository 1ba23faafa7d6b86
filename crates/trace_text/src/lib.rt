//! The line that trace prints after an entry: index, real time, head, action, candidate, adjuster, adjustment, outcome, and the phases
//! that the entry closed early, with `-` where there is none.
#![tactic(auto)]

ghost use Rattle.std.specs.Prelude.{◌≡◌, [], ◌∷◌, ◌++◌, ◌≤◌, length};
ghost use Rattle.print_text.specs.Written.{written, end_of};
ghost use Rattle.trace_text.specs.Text.{choice_text, early_text, entry_text, line_text};

use print_lines::{NEWLINE, put_field};
use print_text::{put, put_text};
use trace_entries::{Early, Line};

// A number, or - for none, and the blank behind it.
fn put_choice(k: Option<u32>, out: &mut [u8], at: usize) -> usize
    ensures { (out.new ≡ written out.old at (choice_text k ++ (32 ∷ []))) × (result ≡ end_of at (choice_text k ++ (32 ∷ []))) }
{
    match k {
        None => put_text(out, at, b"- "),
        Some(x) => put_field(x as u64, out, at),
    }
}

// The phases that an entry closed early.
fn early_word(early: Early) -> &'static str
    ensures { result.now ≡ early_text early.votes early.adjusts }
{
    match (early.votes, early.adjusts) {
        (true, true) => "both",
        (true, false) => "vote",
        (false, true) => "adjust",
        (false, false) => "-",
    }
}

/// An entry and its head after it, as they are printed.
#[derive(Clone, Copy)]
pub struct EntryLine {
    pub index: usize,
    pub time: u32,
    pub head: u8,
    pub action: u8,
    pub candidate: Option<u32>,
    pub adjuster: Option<u32>,
    pub adjustment: Option<u32>,
    pub outcome: u8,
    pub early: Early,
}

impl EntryLine {
    /// Of entry `index`. Only a head that has an adjuster has an adjustment.
    #[tactic(auto, using(crate::proofs::Lengths::entry_short))]
    pub fn of(index: usize, line: Line) -> EntryLine
        ensures text { line_text result ≡ entry_text index line }
        ensures short { length (line_text result) ≤ 175 }
    {
        EntryLine {
            index,
            time: line.time.0,
            head: line.head,
            action: line.action,
            candidate: line.candidate.map(u32::from),
            adjuster: line.adjuster.map(u32::from),
            adjustment: line.adjuster.and(Some(line.adjustment.0)),
            outcome: line.outcome,
            early: line.early,
        }
    }

    /// Writes the line from a position on; back comes the position behind it.
    pub fn put(self, out: &mut [u8], at: usize) -> usize
        ensures { (out.new ≡ written out.old at (line_text self)) × (result ≡ end_of at (line_text self)) }
    {
        let p = put_field(self.index as u64, out, at);
        let p = put_field(self.time as u64, out, p);
        let p = put_field(self.head as u64, out, p);
        let p = put_field(self.action as u64, out, p);
        let p = put_choice(self.candidate, out, p);
        let p = put_choice(self.adjuster, out, p);
        let p = put_choice(self.adjustment, out, p);
        let p = put_field(self.outcome as u64, out, p);
        let p = put_text(out, p, early_word(self.early).as_bytes());
        put(out, p, NEWLINE)
    }
}

/// The line of entry `index`, from the buffer's first byte on; back comes its length.
pub fn put_entry_line(index: usize, line: Line, out: &mut [u8]) -> usize
    ensures { (out.new ≡ written out.old 0 (entry_text index line)) × (result ≡ length (entry_text index line)) × (result ≤ 175) }
{
    EntryLine::of(index, line).put(out, 0)
}
