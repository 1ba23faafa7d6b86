//! The heads' result words, written from their rows into a lent buffer and read back: document 01, "Result words", and document 02,
//! No. 7, "Frames told exactly".
#![tactic(auto)]

ghost use Rattle.std.specs.Prelude.{◌≡◌, ◌+◌, ◌*◌, ◌%◌, ◌^◌, ◌≤◌, ◌<◌, length};
ghost use Rattle.protocol.specs.Claim.{result_of};
ghost use Rattle.protocol.specs.Results.{words_per_head};
ghost use Rattle.sheet_results.specs.Written.{AreWords, Writes};

use head_result::result_numbers;
use protocol::{HeadRow, Mark, TIME_LIMIT};

/// "Each head's result gains a fourth word"
pub const WORDS_PER_HEAD: usize = 4;

// a word's kind is its top four bits
const KIND_6: u32 = 6 << 28;

const KIND_7: u32 = 7 << 28;

const KIND_8: u32 = 8 << 28;

const KIND_9: u32 = 9 << 28;

// "kind 6 with bits 27–24 outcome, 23–20 head, 19–16 candidate, 15–12 adjuster, rest zero"
fn word_6(o: u32, q: u32, c: u32, a: u32) -> u32
    ensures { result ≡ 6 * 2 ^ 28 + o % 16 * 2 ^ 24 + q % 16 * 2 ^ 20 + c % 16 * 2 ^ 16 + a % 16 * 2 ^ 12 }
{
    KIND_6 + ((o % 16) << 24) + ((q % 16) << 20) + ((c % 16) << 16) + ((a % 16) << 12)
}

// "kind 9: bits 27–20 starts, 19–12 votes, 11–4 adjusts, rest zero"
fn word_9(starts: u32, votes: u32, adjusts: u32) -> u32
    ensures { result ≡ 9 * 2 ^ 28 + starts % 256 * 2 ^ 20 + votes % 256 * 2 ^ 12 + adjusts % 256 * 2 ^ 4 }
{
    KIND_9 + ((starts % 256) << 20) + ((votes % 256) << 12) + ((adjusts % 256) << 4)
}

// "kind 7 with the adjustment; kind 8 with the candidate's start reading"; a head that has sent its start has the mark
fn head_words(q: u8, row: &HeadRow) -> [u32; 4]
    requires { q < 16 }
    ensures { AreWords q row.now result }
{
    let [outcome, candidate, adjuster, adjustment, start] = result_numbers(row);
    let started = u32::from(row.marks.has(Mark::StartSent));
    [
        word_6(outcome, q as u32, candidate, adjuster),
        KIND_7 + adjustment % TIME_LIMIT,
        KIND_8 + start % TIME_LIMIT,
        word_9(started, row.votes.sent, row.adjusts.sent),
    ]
}

/// "in head order from word 0, later words kept"
#[tactic(auto, unfolding(protocol::specs::Results::words_from))]
pub fn write_words(out: &mut [u32], n: u8, heads: &[HeadRow; 16])
    requires { (n ≤ 16) × (words_per_head * n ≤ length out.old) }
    ensures { Writes n heads.now out.old out.new }
{
    for q in 0..n {
        let at = WORDS_PER_HEAD * q as usize;
        out[at..at + WORDS_PER_HEAD].copy_from_slice(&head_words(q, &heads[q as usize]));
    }
}

/// Word i of head q's result words, 0 past their end.
pub fn result_word(results: &[u32], q: u8, i: u8) -> u32
    ensures { result ≡ result_of results.now q i }
{
    let at = WORDS_PER_HEAD * q as usize + i as usize;
    if at < results.len() { results[at] } else { 0 }
}
