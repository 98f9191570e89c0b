// The line writer of the text program: an answer as a line of bytes.
#![tactic(auto)]

ghost use Rattle.std.specs.Prelude.{◌+◌, ◌≤◌, length, Some};
ghost use Rattle.model.specs.Lines.{line};
ghost use Rattle.answer_lines.specs.Printed.{printed, answer_of, longest};
ghost use Rattle.answer_lines.specs.PrintedLaws.{field};
ghost use Rattle.answer_lines.specs.Stored.{Stored};

use decimal_text;

// What a line is answered, where it can be read.
#[derive(Clone, Copy, Debug, Default, PartialEq, Eq)]
pub struct Answer {
    pub number: u64,
    pub offset: u64,
    pub id: u64,
    pub allocated: u64,
}

// The most bytes that an answer has: `longest` of its definition.
pub const LONGEST: usize = 84;

// Stores a number and the byte behind it, and answers the next place.
fn put_field(out: &mut [u8], at: usize, n: u64, end: u8) -> usize
    requires { at + 21 ≤ length out.old }
    ensures { Stored out.old out.new at result (field n end) 21 }
{
    let next = decimal_text::put_decimal(out, at, n);
    decimal_text::put(out, next, end)
}

// Stores the four numbers of a line.
fn put_line(out: &mut [u8], at: usize, answer: Answer) -> usize
    requires { at + longest ≤ length out.old }
    ensures { Stored out.old out.new at result (printed (answer_of (Some answer))) longest }
{
    let second = put_field(out, at, answer.number, b' ');
    let third = put_field(out, second, answer.offset, b' ');
    let fourth = put_field(out, third, answer.id, b' ');
    put_field(out, fourth, answer.allocated, b'\n')
}

// Not by `Display`, whose writing may fail: `put_answer` cannot, and says where each byte stands.
// Stores an answer from a place on, "?" where there is none, and answers the next place.
pub fn put_answer(out: &mut [u8], at: usize, answer: Option<Answer>) -> usize
    requires { at + longest ≤ length out.old }
    ensures { Stored out.old out.new at result (printed (answer_of answer)) longest }
{
    match answer {
        Some(answer) => put_line(out, at, answer),
        None => {
            let next = decimal_text::put(out, at, b'?');
            decimal_text::put(out, next, b'\n')
        }
    }
}
