// Reads the recorded lines, a byte at a time, and counts how each comes out.
ghost use Rattle.std.specs.Prelude.{◌≤◌};

use crate::{dedicated_answers, leak_answers};
use recorded_blocks::Store;
use recorded_pages;

// No line has more numbers.
const MOST: usize = 11;

// The numbers of a line, the last of which is being read.
#[derive(Clone, Copy)]
struct Fields {
    numbers: [u64; MOST],
    count: usize,
    ghost some: { 1 ≤ count },
    ghost within: { count ≤ 11 },
}

impl Fields {
    fn new() -> Self {
        Fields {
            numbers: [0; MOST],
            count: 1,
        }
    }

    fn as_slice(&self) -> &[u64] {
        &self.numbers[..self.count]
    }

    // One byte more of the line, none where it can agree with nothing then.
    fn with(self, byte: u8) -> Option<Self> {
        match byte {
            b' ' => self.with_next(),
            b'0'..=b'9' => self.with_digit(u64::from(byte - b'0')),
            _ => None,
        }
    }

    // What would not fit a word is no number of the Rust's.
    fn with_digit(mut self, digit: u64) -> Option<Self> {
        let last = self.count - 1;
        self.numbers[last] = self.numbers[last].checked_mul(10)?.checked_add(digit)?;
        Some(self)
    }

    fn with_next(mut self) -> Option<Self> {
        if self.count == MOST {
            return None;
        }
        self.count += 1;
        Some(self)
    }
}

#[derive(Clone, Copy)]
pub struct Lines {
    // None where the present line is none that agrees with anything.
    fields: Option<Fields>,
    // A line with a '#' says how the others were made.
    comment: bool,
    store: Store,
    pub agree: u64,
    pub differ: u64,
}

// The first field says which function or call, and so which of the crates answers.
fn agrees(store: &mut Store, fields: &[u64]) -> bool {
    match *fields {
        [1..=4, ..] => recorded_pages::agrees(fields),
        [5..=9, ..] => store.agrees(fields),
        [10..=14, ..] => dedicated_answers::agrees(store, fields),
        [15..=16, ..] => leak_answers::agrees(store.lent(), fields),
        _ => false,
    }
}

impl Lines {
    pub fn new() -> Self {
        Lines {
            fields: Some(Fields::new()),
            comment: false,
            store: Store::new(),
            agree: 0,
            differ: 0,
        }
    }

    pub fn feed(&mut self, text: &[u8]) {
        for byte in text {
            self.take(*byte);
        }
    }

    fn take(&mut self, byte: u8) {
        match byte {
            b'\n' => self.end_line(),
            b'#' => self.comment = true,
            _ => {
                // no map over the Option: it would be stored again for each byte of a spoilt line
                if let Some(fields) = self.fields {
                    self.fields = fields.with(byte);
                }
            }
        }
    }

    // Counts the line, unless it is a comment.
    fn end_line(&mut self) {
        let fields = self.fields.replace(Fields::new());
        if std::mem::take(&mut self.comment) {
            return;
        }
        if fields.is_some_and(|fields| agrees(&mut self.store, fields.as_slice())) {
            self.agree = self.agree.wrapping_add(1);
        } else {
            self.differ = self.differ.wrapping_add(1);
        }
    }
}
