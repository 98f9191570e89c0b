// Whether the leak walk answers as a recorded line says, on the words of the table at hand.
use leak_walk;
use leaks::leak::Leak;
use refusals::Refusal;

// At the end the five values are 0.
const END: Leak = Leak {
    id: 0,
    first_byte: 0,
    size: 0,
    kind: 0,
    label: 0,
};

fn leak_agrees(answer: Result<Option<Leak>, Refusal>, told: Leak) -> bool {
    answer.is_ok_and(|leak| leak.unwrap_or(END) == told)
}

// The first step of a walk that is begun anew, whose start finds no fault.
fn begin_agrees(words: &[u64], told: Leak, after: u64) -> bool {
    let begun = leak_walk::begin(words);
    begun.fault.is_none() && begun.place == after && leak_agrees(begun.leak, told)
}

fn step_agrees(words: &[u64], from: u64, told: Leak, after: u64) -> bool {
    let mut place = from;
    let answer = leak_walk::step_from(words, &mut place);
    place == after && leak_agrees(answer, told)
}

// A walk that is refused at its start is refused at its first step too, with the same number.
fn refused_agrees(words: &[u64], number: u64) -> bool {
    let begun = leak_walk::begin(words);
    begun
        .fault
        .is_some_and(|refusal| u64::from(refusal) == number)
        && refusals::number(&begun.leak) == number
        && begun.place == 0
}

// The place before the step, what is handed out, and the place after it; from 0 on a walk is begun.
pub fn agrees(words: &[u64], fields: &[u64]) -> bool {
    match *fields {
        [15, place, id, first_byte, size, kind, label, after] => {
            let told = Leak {
                id,
                first_byte,
                size,
                kind,
                label,
            };
            if place == 0 {
                begin_agrees(words, told, after)
            } else {
                step_agrees(words, place, told, after)
            }
        }
        [16, number] => refused_agrees(words, number),
        _ => false,
    }
}
