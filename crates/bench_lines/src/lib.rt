// The text program between reading and writing: a text is fed in, piece by piece, and what it prints is put into a buffer.
#![tactic(auto)]

ghost use Rattle.std.specs.Prelude.{◌≡◌, ◌≤◌, length};
ghost use Rattle.bench_lines.specs.Feeding.{begin, emptied, is_begun, fits, has_room, ended_on, taken_on, feed_on, Ready};

use answer_lines;
use answer_lines::LONGEST;
use bench_step;
use bench_step::Stepped;
use call_lines::line::Line;
use table::layout;

// What is kept between two bytes, but for the store: the line so far, how many words of the store the block at hand has, and
// how many bytes of the buffer are written.
#[derive(Clone, Copy, Debug, Default, PartialEq, Eq)]
pub struct Bench {
    pub line: Line,
    pub lent: usize,
    pub used: usize,
}

// The same, and the place of the first byte of the text that was not read.
#[derive(Clone, Copy, Debug, PartialEq, Eq)]
pub struct Fed {
    pub bench: Bench,
    pub read: usize,
}

impl Bench {
    // No byte read, and no block.
    pub fn new() -> Bench
        ensures { result ≡ begin }
    {
        Bench::default()
    }

    // Whether the last line has a byte and no line feed yet.
    pub fn is_begun(self) -> bool
        ensures { result ≡ is_begun self }
    {
        self.line.is_begun()
    }

    // The buffer is written from its front again.
    fn emptied(self) -> Bench
        ensures { result ≡ emptied self }
    {
        Bench { used: 0, ..self }
    }

    // Whether the store is long enough for every table, and for the one at hand.
    #[tactic(auto, unfolding(crate::specs::Feeding::fits, laws::specs::Every::every))]
    fn fits(self, store: &[u64]) -> bool
        ensures { result ≡ fits self store.now }
    {
        layout::MOST_WORDS <= store.len() && self.lent <= store.len()
    }

    // Whether the buffer has room for one more answer.
    #[tactic(auto, unfolding(crate::specs::Feeding::has_room))]
    fn has_room(self, out: &[u8]) -> bool
        ensures { result ≡ has_room self out.now }
    {
        LONGEST <= out.len() && self.used <= out.len() - LONGEST
    }

    // The line ends: it is answered, and the next one begins.
    fn ended(self, store: &mut [u64], out: &mut [u8]) -> Bench
        requires { Ready self store.old out.old }
        ensures { (result, store.new, out.new) ≡ ended_on self store.old out.old }
    {
        let Stepped { answer, lent } = bench_step::step(store, self.lent, self.line.asked());
        let used = answer_lines::put_answer(out, self.used, answer);
        Bench {
            line: Line::new(),
            lent,
            used,
        }
    }

    // One byte more.
    #[tactic(auto, unfolding(crate::specs::Feeding::taken_on))]
    fn taken(self, byte: u8, store: &mut [u64], out: &mut [u8]) -> Bench
        requires { Ready self store.old out.old }
        ensures { (result, store.new, out.new) ≡ taken_on self byte store.old out.old }
    {
        if byte == b'\n' {
            return self.ended(store, out);
        }
        Bench {
            line: self.line.fed(byte),
            ..self
        }
    }
}

// The text is read from a place on, to its end or for as long as the buffer has room for an answer. The place stands beside the text, not as
// a slice of it: it may lie past the end, and `feed_on` says what is answered then.
pub fn feed(text: &[u8], from: usize, begun: Bench, store: &mut [u64], out: &mut [u8]) -> Fed
    ensures out_after { (result, store.new, out.new) ≡ feed_on text.now from begun store.old out.old }
    ensures used_in_bounds { result.bench.used ≤ length out.new }
{
    let mut bench = begun.emptied();
    if !bench.fits(store) {
        return Fed { bench, read: from };
    }
    for read in from..text.len() {
        if !bench.has_room(out) {
            return Fed { bench, read };
        }
        bench = bench.taken(text[read], store, out);
    }
    Fed {
        bench,
        read: from.max(text.len()),
    }
}
