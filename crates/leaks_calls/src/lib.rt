// The leak walk at the boundary: its place as a number that the caller keeps, one live chunk's five words out.
#![tactic(auto)]

ghost use Rattle.std.specs.Prelude.{◌≡◌};
ghost use Rattle.leaks.specs.Leaks.{step_on};
ghost use Rattle.leaks_calls.specs.LeaksCalls.{start_out, leak_out};

use leak_walk;
use leaks::leak::Leak;
use opening::look;

#[unsafe(no_mangle)]
pub extern "C" fn lunkaseyo_leaks_start(words: &[u64], place: &mut u64) -> u64
    ensures { (result, place.new) ≡ start_out words.now }
{
    *place = 0;
    refusals::number(&look::sound_table(words))
}

// An id of 0 with the number 0 tells the end of the walk: no live chunk has that id.
#[unsafe(no_mangle)]
pub extern "C" fn lunkaseyo_leaks_step(words: &[u64], place: &mut u64, leak: &mut [u64; 5]) -> u64
    ensures { (result, place.new, leak.new) ≡ leak_out (step_on words.now place.old) }
{
    let answer = leak_walk::step_from(words, place);
    *leak = match answer {
        Ok(
            Some(
                Leak {
                    id,
                    first_byte,
                    size,
                    kind,
                    label,
                },
            ),
        ) => [id, first_byte, size, kind, label],
        _ => [0; 5],
    };
    refusals::number(&answer)
}
