// The step of the text program: what a line asks for is done on the block at hand, in the first words of a store.
#![tactic(auto)]

ghost use Rattle.std.specs.Prelude.{◌≡◌, ◌≤◌, length, take, cond, Some};
ghost use Rattle.model.specs.Runs.Call.{allocate, free as freeCall};
ghost use Rattle.table.specs.Layout.{most_words};
ghost use Rattle.opening.specs.Look.{table_fault};
ghost use Rattle.opening.specs.Questions.{allocated_on};
ghost use Rattle.refusals.specs.Refusals.{number_of, fault_of};
ghost use Rattle.sub_allocator.specs.Requests.{request_of};
ghost use Rattle.block.specs.Runs.{told};
ghost use Rattle.call_lines.specs.Asked.{asked_of};
ghost use Rattle.answer_lines.specs.Printed.{answer_of};
ghost use Rattle.bench_step.specs.Step.{fault_told, line_after, new_answered, answered, stored};

use answer_lines::Answer;
use call_lines::asked::Call;
use giving_back;
use opening::creation;
use placing;
use refusals;
use refusals::Refusal;
use sub_allocator::request::Request;
use table::layout;
use table::layout::HeadField;
use words::ranges;

// What a line is answered, and how many words the block at hand has then: none where there is no block.
#[derive(Clone, Copy, Debug, PartialEq, Eq)]
pub struct Stepped {
    pub answer: Option<Answer>,
    pub lent: usize,
}

// Whether the words are no sound table.
#[tactic(auto, unfolding(crate::specs::Step::fault_told))]
fn is_unfit(refusal: Refusal) -> bool
    ensures { cond result (number_of refusal) 0 ≡ fault_told (number_of refusal) }
{
    matches!(refusal, Refusal::WordCount | Refusal::Unsound)
}

// The bytes allocated after a call that answered so. It has looked at the table, so that is not done again.
fn total_after<T>(words: &[u64], answer: &Result<T, Refusal>) -> u64
    requires { table_fault words.now ≡ fault_told (fault_of answer.now) }
    ensures { result ≡ told (allocated_on words.now) }
{
    match answer {
        Err(refusal) if is_unfit(*refusal) => 0,
        _ => layout::head(words, HeadField::Allocated),
    }
}

fn allocate_answer(words: &mut [u64], request: Request) -> Answer
    ensures { (answer_of (Some result), words.new) ≡ line_after (allocate (request_of request)) words.old }
{
    let placed = placing::allocate(words, request);
    let allocated = total_after(words, &placed);
    match placed {
        Ok(placement) => Answer {
            number: 0,
            offset: placement.offset,
            id: placement.id,
            allocated,
        },
        Err(refusal) => Answer {
            number: u64::from(refusal),
            offset: 0,
            id: 0,
            allocated,
        },
    }
}

fn free_answer(words: &mut [u64], id: u64) -> Answer
    ensures { (answer_of (Some result), words.new) ≡ line_after (freeCall id) words.old }
{
    let freed = giving_back::free(words, id);
    Answer {
        number: refusals::number(&freed),
        offset: 0,
        id: 0,
        allocated: total_after(words, &freed),
    }
}

// A new block takes the place of the one at hand, also where it is refused.
fn new_step(store: &mut [u64], lent: usize, size: u64, slots: u64) -> Stepped
    requires { (most_words ≤ length store.old) × (lent ≤ length store.old) }
    ensures { (answer_of result.answer, result.lent, store.new) ≡ stored store.old (new_answered size slots (take lent store.old)) }
{
    if !ranges::is_up_to(layout::MOST_SLOTS, slots) {
        return Stepped { answer: None, lent };
    }
    let end = layout::word_count(slots);
    match creation::new(&mut store[..end], size) {
        Ok(()) => Stepped {
            answer: Some(Answer::default()),
            lent: end,
        },
        Err(refusal) => Stepped {
            answer: Some(Answer {
                number: u64::from(refusal),
                ..Answer::default()
            }),
            lent: 0,
        },
    }
}

// The store is lent for the step alone, and the block outlives it: so `lent` stands beside it, and is kept by the caller.
pub fn step(store: &mut [u64], lent: usize, call: Option<Call>) -> Stepped
    requires { (most_words ≤ length store.old) × (lent ≤ length store.old) }
    ensures { (answer_of result.answer, result.lent, store.new) ≡ stored store.old (answered (asked_of call) (take lent store.old)) }
{
    let Some(call) = call else {
        return Stepped { answer: None, lent };
    };
    match call {
        Call::New { size, slots } => new_step(store, lent, size, slots),
        Call::Allocate(request) if lent > 0 => Stepped {
            answer: Some(allocate_answer(&mut store[..lent], request)),
            lent,
        },
        Call::Free(id) if lent > 0 => Stepped {
            answer: Some(free_answer(&mut store[..lent], id)),
            lent,
        },
        _ => Stepped { answer: None, lent },
    }
}
