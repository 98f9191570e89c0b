// A dedicated block made and asked at the boundary: its record as three words, the values asked for out, 0 on a refusal.
#![tactic(auto)]

ghost use Rattle.std.specs.Prelude.{◌≡◌};
ghost use Rattle.dedicated.specs.Dedicated.{new_block, allocated_in, is_empty_in, report_of};
ghost use Rattle.dedicated.specs.RecordWords.{record_of};
ghost use Rattle.outs.specs.Outs.{value_out, flag_out};
ghost use Rattle.dedicated_words.specs.RecordOut.{new_out};
ghost use Rattle.dedicated_calls.specs.DedicatedCalls.{report_out};

use dedicated::record::DedicatedBlock;
use dedicated::{creation, questions};
use dedicated_words;
use outs;

// A refusal keeps the words that are there.
#[unsafe(no_mangle)]
pub extern "C" fn lunkaseyo_dedicated_new(record: &mut [u64; 3], size: u64) -> u64
    ensures { (result, «record».new) ≡ new_out (new_block size) «record».old }
{
    dedicated_words::give_record(creation::new(size), record)
}

#[unsafe(no_mangle)]
pub extern "C" fn lunkaseyo_dedicated_allocated(record: &[u64; 3], allocated: &mut u64) -> u64
    ensures { (result, allocated.new) ≡ value_out (allocated_in (record_of «record».now)) }
{
    let answer = questions::allocated(DedicatedBlock::from(*record));
    outs::give_value(answer, allocated)
}

#[unsafe(no_mangle)]
pub extern "C" fn lunkaseyo_dedicated_is_empty(record: &[u64; 3], is_empty: &mut u64) -> u64
    ensures { (result, is_empty.new) ≡ flag_out (is_empty_in (record_of «record».now)) }
{
    let answer = questions::is_empty(DedicatedBlock::from(*record));
    outs::give_flag(answer, is_empty)
}

#[unsafe(no_mangle)]
pub extern "C" fn lunkaseyo_dedicated_report_allocations(
    record: &[u64; 3],
    report: &mut [u64; 3],
) -> u64
    ensures { (result, report.new) ≡ report_out (report_of (record_of «record».now)) }
{
    let answer = questions::report_allocations(DedicatedBlock::from(*record));
    let Ok(entry) = answer else {
        *report = [0; 3];
        return refusals::number(&answer);
    };
    *report = [entry.first_byte, entry.size, entry.label];
    0
}
