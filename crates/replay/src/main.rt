//! The replay program: a run sheet on standard input, and what becomes of it on standard output. All that matters is in
//! `print_replay::print`; a sheet has at most 49,160 bytes, so one that fills the buffer is too long.
#![tactic(auto)]

use print_replay::print;
use read_input::fill;
use std::io;

fn main(rt: HostRuntime) -> io::Result<()> {
    let mut buffer = [0u8; 65536];
    let n = fill(&mut rt.stdin(), &mut buffer)?;
    let mut out = [0u8; 1024];
    let m = print(&buffer[..n], &mut out);
    rt.write_all(&out[..m])
}
