//! What the program trace shows of an entry: the entry, and where its head stands after it.
#![tactic(auto)]

ghost use Rattle.std.specs.Prelude.{◌≡◌, replicate};
ghost use Rattle.protocol.specs.Types.{Accepted};
ghost use Rattle.protocol.specs.Causes.{sheet_verdict};
ghost use Rattle.protocol.specs.OpenTable.{open_actions};
ghost use Rattle.trace_entries.specs.Trace.{traced};
ghost use Rattle.trace_entries.specs.Follows.{Follows, GoesOn, IsLine};

use data_values::number_in;
use head_result::result_numbers;
use protocol::{Entry, HeadRow, Reading, RealTime, Refusal};
use sheet_entry::{entry_verdict, take_entry};
use sheet_state::{fresh_heads, head_index};
use sheet_words::{entry_count, read_entry, setting_at};

/// Which phases an entry closed early at its head.
#[derive(Clone, Copy)]
pub struct Early {
    pub votes: bool,
    pub adjusts: bool,
}

/// An entry, with its head's candidate, adjuster, adjustment and outcome after it, and the phases that it closed early.
#[derive(Clone, Copy)]
pub struct Line {
    pub time: RealTime,
    pub head: u8,
    pub action: u8,
    pub candidate: Option<u8>,
    pub adjuster: Option<u8>,
    pub adjustment: Reading,
    pub outcome: u8,
    pub early: Early,
}

// The line of an entry, by its head's row after it and by whether the head had closed its votes and its adjust phase early before.
fn line_of(e: Entry, votes: bool, adjusts: bool, row: &HeadRow) -> Line
    ensures { IsLine e votes adjusts row.now result }
{
    let x = result_numbers(row);
    Line {
        time: e.time,
        head: e.head,
        action: e.action,
        candidate: number_in(row.votes.choice),
        adjuster: number_in(row.adjusts.choice),
        adjustment: Reading(row.adjustment),
        outcome: (x[0] % 256) as u8,
        early: Early {
            votes: !votes & (row.votes.early == 1),
            adjusts: !adjusts & (row.adjusts.early == 1),
        },
    }
}

/// The rows before the first entry of an accepted sheet; no frame is sent yet, and the real time is 0.
pub fn first_heads(sheet: &[u32]) -> [HeadRow; 16]
    requires { sheet_verdict sheet.now ≡ Accepted }
    ensures { Follows sheet.now 0 result (replicate 512 0) (replicate 512 0) 0 }
{
    fresh_heads(setting_at(sheet))
}

/// Entry i of a sheet and its head after it, or its refusal, from what the entries before it left; none past the last entry. The table of open actions is lent.
pub fn trace_next(
    sheet: &[u32],
    i: usize,
    time: u32,
    table: &[u8; 1280],
    heads: &mut [HeadRow; 16],
    choices: &mut [u8; 512],
    carried: &mut [u32; 512],
) -> Result<Option<Line>, Refusal>
    requires { Follows sheet.now i heads.old choices.old carried.old time × (table.now ≡ open_actions) }
    ensures { (result ≡ traced sheet.now i) × GoesOn sheet.now i result heads.new choices.new carried.new }
{
    if entry_count(sheet) <= i {
        return Ok(None);
    }
    let r = read_entry(sheet, setting_at(sheet).n, i);
    let e = r.entry;
    match entry_verdict(e, r.fits, time, table, heads) {
        Err(cause) => Err(Refusal {
            cause,
            place: 2 + 3 * i,
        }),
        Ok(()) => {
            let h = head_index(e.head);
            let votes = heads[h].votes.early == 1;
            let adjusts = heads[h].adjusts.early == 1;
            take_entry(e, heads, choices, carried);
            Ok(Some(line_of(e, votes, adjusts, &heads[h])))
        }
    }
}
