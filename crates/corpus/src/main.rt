//! What the replay program prints, for many sheets: on standard input, for each sheet, the number of its bytes as a
//! big-endian word, then its bytes.
#![tactic(auto)]

use data_bytes::word_at;
use print_replay::print;
use read_input::fill;
use std::io::{self, Read};

fn print_sheet(rt: &impl Print, bytes: &[u8]) -> io::Result<()> {
    let mut out = [0u8; 1024];
    let m = print(bytes, &mut out);
    rt.write_all(&out[..m])
}

// Prints the next sheet, and answers whether there was one.
fn print_next(rt: &impl Print, input: &mut impl Read) -> io::Result<bool> {
    let mut number = [0u8; 4];
    if fill(input, &mut number)? < 4 {
        return Ok(false);
    }
    let length = word_at(&number, 0) as usize;
    if 65536 < length {
        return Ok(false);
    }
    let mut buffer = [0u8; 65536];
    let n = fill(input, &mut buffer[..length])?;
    print_sheet(rt, &buffer[..n])?;
    Ok(true)
}

// At most as many sheets as a word can count.
fn main(rt: HostRuntime) -> io::Result<()> {
    let mut input = rt.stdin();
    for _ in 0..u32::MAX {
        if !print_next(&rt, &mut input)? {
            break;
        }
    }
    Ok(())
}
