//! Prints, after every entry of a run sheet: its index, real time, head and action, then the head's candidate, adjuster
//! and adjustment (- for none) and outcome, and which phases the entry closed early: vote, adjust, both, or -. Its last line:
//! `refused`, the cause's number and the place; or `premises`, the first broken premise or 0, and where it was broken: `entry` and
//! its index, or `end`.
//! The sheet comes on standard input; it has at most 49,160 bytes, so one that fills the buffer is too long.
#![tactic(auto)]

ghost use Rattle.std.specs.Prelude.{◌≡◌};
ghost use Rattle.protocol.specs.Types.{Accepted};
ghost use Rattle.protocol.specs.Causes.{sheet_verdict};

use data_bytes::{big_endian, bytes_verdict};
use read_input::fill;
use sheet_open::open_actions;
use sheet_words::{entry_count, sheet_verdict};
use std::io;
use trace_entries::{Line, first_heads, trace_next};
use trace_last::put_last_line;
use trace_text::put_entry_line;

fn print_line(rt: &impl Print, i: usize, line: Line) -> io::Result<()> {
    let mut out = [0u8; 175];
    let n = put_entry_line(i, line, &mut out);
    rt.write_all(&out[..n])
}

fn print_last(rt: &impl Print, bytes: &[u8]) -> io::Result<()> {
    let mut out = [0u8; 64];
    let n = put_last_line(bytes, &mut out);
    rt.write_all(&out[..n])
}

// Prints the entries of an accepted sheet, up to one that is refused.
fn print_entries(rt: &impl Print, sheet: &[u32]) -> io::Result<()>
    requires { sheet_verdict sheet.now ≡ Accepted }
{
    let table = open_actions();
    let mut heads = first_heads(sheet);
    let mut choices = [0u8; 512];
    let mut carried = [0u32; 512];
    let mut time: u32 = 0;
    for i in 0..entry_count(sheet) {
        let Ok(Some(line)) = trace_next(
            sheet,
            i,
            time,
            &table,
            &mut heads,
            &mut choices,
            &mut carried,
        ) else {
            break;
        };
        print_line(rt, i, line)?;
        time = line.time.0;
    }
    Ok(())
}

fn print_bytes(rt: &impl Print, bytes: &[u8]) -> io::Result<()> {
    let Ok(()) = bytes_verdict(bytes) else {
        return Ok(());
    };
    let words = big_endian(bytes);
    let sheet = &words[..bytes.len() / 4];
    let Ok(()) = sheet_verdict(sheet) else {
        return Ok(());
    };
    print_entries(rt, sheet)
}

fn main(rt: HostRuntime) -> io::Result<()> {
    let mut buffer = [0u8; 65536];
    let n = fill(&mut rt.stdin(), &mut buffer)?;
    let bytes = &buffer[..n];
    print_bytes(&rt, bytes)?;
    print_last(&rt, bytes)
}
