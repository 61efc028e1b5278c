// Reads a list of calls with the Rust's answers (oracle/FORMAT.md) from standard input, performs the calls on the record, and
// says how many it compared, how many differ, and which is the first.
#![tactic(auto)]

mod build;
mod compare;
mod digest;
mod entry;
mod image;
mod mode;
mod perform;
mod place;

use crate::compare::{End, Progress};
use crate::entry::ENTRY_LEN;
use input::read_full;
use std::io;
use std::io::Read;

const BUFFER_LEN: usize = 1024 * ENTRY_LEN;

// Compares as many entries as the buffer holds. The input is over where it does not fill the buffer.
fn turn<R: Read>(input: &mut R, progress: &mut Progress) -> io::Result<()> {
    let mut list = [0u8; BUFFER_LEN];
    let count = read_full(input, &mut list)?;
    progress.compare_all(&list[..count]);
    if count < BUFFER_LEN {
        progress.end = progress.end.or(Some(End::Over));
    }
    Ok(())
}

// As many turns as no run uses up: nothing says that an input ends, and a `while` without an end would need Wait in HANDLES.
fn replayed<R: Read>(input: &mut R) -> io::Result<Progress> {
    let mut progress = Progress::start();
    for _ in 0..u64::MAX {
        if progress.end.is_some() {
            break;
        }
        turn(input, &mut progress)?;
    }
    Ok(progress)
}

fn main(rt: HostRuntime) -> io::Result<()> {
    let mut input = rt.stdin();
    let progress = replayed(&mut input)?;
    println!(rt; "compared {}", progress.compared)?;
    println!(rt; "differ {}", progress.differ)?;
    match progress.first {
        Some(first) => println!(rt; "first {first}")?,
        None => println!(rt; "first -")?,
    }
    if progress.end == Some(End::Malformed) {
        println!(rt; "malformed at {}", progress.offset)?;
    }
    Ok(())
}
