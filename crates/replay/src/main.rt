// Replays answers that the Rust gave to the page functions, to the calls of blocks of both kinds and to reports of what is live:
// standard input has a line for each, and the count of those that agree and of those that do not is written out.
#![tactic(auto)]

mod dedicated_answers;
mod leak_answers;
mod lines;

use crate::lines::Lines;
use std::io;
use std::io::Read;

// The input is read in so many pieces of so many bytes, 4 MiB in all: a line past that would be missing from the count.
const PIECES: u64 = 64;

const PIECE: u64 = 65536;

// Takes what one read brings: no bytes only where the piece or the input ends.
fn read_on<R: Read>(input: &mut R, space: &mut [u8], lines: &mut Lines) -> io::Result<usize> {
    let count = input.read(space)?;
    lines.feed(&space[..count]);
    Ok(count)
}

// Takes a piece, by reads into one space, which is cleared once: a read may bring a byte alone. A terminal may go on after an end, so that the next
// piece is asked for all the same. A proved loop has to end: its range is one that no run uses up.
fn read_piece<R: Read>(piece: &mut R, lines: &mut Lines) -> io::Result<()> {
    let mut space: [u8; 65536] = [0; 65536];
    for _ in 0..u64::MAX {
        if read_on(piece, &mut space, lines)? == 0 {
            break;
        }
    }
    Ok(())
}

fn main(rt: HostRuntime) -> io::Result<()> {
    let mut lines = Lines::new();
    for _ in 0..PIECES {
        read_piece(&mut rt.stdin().take(PIECE), &mut lines)?;
    }
    let agree = lines.agree;
    let differ = lines.differ;
    println!(rt; "{agree} agree, {differ} differ")
}
