// How a round ends for a head.
ghost use Rattle.std.specs.Prelude.{◌≡◌, slice_index_or};
ghost use Rattle.protocol.specs.Record.{chosen_start, no_sender, outcome};

use protocol::{HeadRecord, Reading, Sender};

fn start_at(senders: [Sender; 16], p: u8) -> Option<Reading>
    ensures { result ≡ (slice_index_or senders p no_sender).start }
{
    if p < 16 {
        let i = p as usize;
        let e = senders[i];
        e.start
    } else {
        None
    }
}

/// The candidate's start reading.
pub fn chosen_start(r: HeadRecord) -> Option<Reading>
    ensures { result ≡ chosen_start r }
{
    let v = r.vote;
    let c = v.choice;
    let senders = r.senders;
    match c {
        None => None,
        Some(p) => start_at(senders, p),
    }
}

/// 2 for a head that adopted a clock, 1 for one that did not, 0 before the adjust close.
#[tactic(auto, unfolding(protocol::specs::Record::outcome))]
pub fn outcome(r: HeadRecord) -> u8
    ensures { result ≡ outcome r }
{
    if !r.adjust.closed {
        0
    } else if chosen_start(r).is_some() && r.adjust.choice.is_some() {
        2
    } else {
        1
    }
}
