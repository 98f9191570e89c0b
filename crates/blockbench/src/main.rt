// Reads lines of calls from standard input, and writes a line for each to standard output.
#![tactic(auto)]

ghost use Rattle.std.specs.Prelude.{true, ◌≡◌, IfOk, OnErr};
ghost use Rattle.std.specs.Option.{option_copied};
ghost use Rattle.bench_lines.specs.Feeding.{begin, fits};
ghost use Rattle.blockbench.specs.Moving.{MovesSome, MovesAll, MovesGot, MovesLast};

use bench_lines;
use bench_lines::Bench;
use std::fmt;
use std::io::{Print, Read};
use std::ops::ControlFlow;
use table::layout;

// How many bytes a read or a write moves at most.
const LARGE: usize = 65536;

// What ends the program early: there is no text any more, and no line begun.
#[derive(Clone, Copy, Debug, PartialEq, Eq)]
enum Failure {
    Input,
    Answers,
}

impl fmt::Display for Failure {
    fn fmt<W: fmt::Write>(&self, f: &mut fmt::Formatter<W>) -> fmt::Result {
        f.write_str(match self {
            Failure::Input => "the input cannot be read",
            Failure::Answers => "the answers cannot be written",
        })
    }
}

// What is kept from one piece of the text to the next: the store has room for every table, and for the one at hand.
#[derive(Drop)]
struct Desk {
    bench: Bench,
    store: [u64; layout::MOST_WORDS],
    ghost fits: { fits bench store ≡ true },
}

impl Desk {
    // Reads on in a piece, and writes out what that prints.
    fn move_some(&mut self, rt: &HostRuntime, text: &[u8], from: usize) -> Result<usize, Failure>
        ensures ok { IfOk result (λ r. MovesSome text.now from self.old.bench self.old.store (record { bench = self.new.bench; read = r }) self.new.store) }
        ensures err { OnErr result (self.new.bench ≡ begin) }
    {
        let mut out: [u8; LARGE] = [0; LARGE];
        let fed = bench_lines::feed(text, from, self.bench, &mut self.store, &mut out);
        self.bench = fed.bench;
        if rt.stdout().write_all(&out[..fed.bench.used]).is_err() {
            self.bench = Bench::new();
            return Err(Failure::Answers);
        }
        Ok(fed.read)
    }

    // All of a piece, and how much that is: each turn reads a byte at least, since an empty buffer has room for an answer.
    fn move_all(&mut self, rt: &HostRuntime, text: &[u8]) -> Result<usize, Failure>
        ensures ok { IfOk result (λ r. MovesAll text.now self.old.bench self.old.store (record { bench = self.new.bench; read = r }) self.new.store) }
        ensures err { OnErr result (self.new.bench ≡ begin) }
    {
        let mut read = 0;
        while read < text.len() {
            read = self.move_some(rt, text, read)?;
        }
        Ok(read)
    }

    // What a read brought, if it did not fail. At the end of the input a line that was begun is kept.
    fn move_got(&mut self, rt: &HostRuntime, got: Option<&[u8]>) -> Result<ControlFlow<()>, Failure>
        ensures got { MovesGot (option_copied got.entry) self.old.bench self.old.store result self.new.bench self.new.store }
        ensures err { OnErr result (self.new.bench ≡ begin) }
    {
        let Some(text) = got else {
            self.bench = Bench::new();
            return Err(Failure::Input);
        };
        if text.is_empty() {
            return Ok(ControlFlow::Break(()));
        }
        self.move_all(rt, text)?;
        Ok(ControlFlow::Continue(()))
    }

    // One read, and what it brings.
    fn move_read(&mut self, rt: &HostRuntime) -> Result<ControlFlow<()>, Failure> {
        let mut space: [u8; LARGE] = [0; LARGE];
        match rt.stdin().read(&mut space) {
            Ok(length) => self.move_got(rt, Some(&space[..length])),
            Err(_) => self.move_got(rt, None),
        }
    }

    // A proved loop has to end, and nothing says that the input does: its range is one that no run uses up.
    fn move_input(&mut self, rt: &HostRuntime) -> Result<(), Failure> {
        for _ in 0..u64::MAX {
            if self.move_read(rt)?.is_break() {
                break;
            }
        }
        Ok(())
    }

    // A last line that has a byte needs no line feed.
    fn move_last(&mut self, rt: &HostRuntime) -> Result<(), Failure>
        ensures last { MovesLast self.old.bench self.old.store result self.new.bench self.new.store }
        ensures err { OnErr result (self.new.bench ≡ begin) }
    {
        if self.bench.is_begun() {
            self.move_all(rt, b"\n")?;
        }
        Ok(())
    }
}

fn run(rt: &HostRuntime) -> Result<(), Failure> {
    let mut desk = Desk {
        bench: Bench::new(),
        store: [0; layout::MOST_WORDS],
    };
    desk.move_input(rt)?;
    desk.move_last(rt)
}

fn main(rt: HostRuntime) {
    if let Err(failure) = run(&rt) {
        let _ = eprintln!(rt; "blockbench: {failure}");
    }
}
