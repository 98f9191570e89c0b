// The calls that change a dedicated block, at the boundary: its record as three words, offset and id out, 0 on a refusal.
#![tactic(auto)]

ghost use Rattle.std.specs.Prelude.{◌≡◌};
ghost use Rattle.dedicated.specs.Dedicated.{allocate_in, free_in, rename_in};
ghost use Rattle.dedicated.specs.RecordWords.{record_of};
ghost use Rattle.outs.specs.Outs.{request};
ghost use Rattle.dedicated_changes_calls.specs.DedicatedChanges.{record_out, placed_record_out};

use dedicated::record::DedicatedBlock;
use dedicated_by_value;
use dedicated_words::give_record;
use outs;
use sub_allocator::request::Request;

// C hands over a request as five numbers.
#[unsafe(no_mangle)]
pub extern "C" fn lunkaseyo_dedicated_allocate(
    record: &mut [u64; 3],
    size: u64,
    alignment: u64,
    kind: u64,
    granularity: u64,
    label: u64,
    offset: &mut u64,
    id: &mut u64,
) -> u64
    ensures { (result, offset.new, id.new, «record».new) ≡ placed_record_out (allocate_in (record_of «record».old) (request size alignment kind granularity label)) }
{
    let request = Request {
        size,
        alignment,
        kind,
        granularity,
        label,
    };
    let answer = dedicated_by_value::allocate(DedicatedBlock::from(*record), request);
    give_record(answer.map(|(_, after)| after), record);
    outs::give_placement(answer.map(|(placement, _)| placement), offset, id)
}

#[unsafe(no_mangle)]
pub extern "C" fn lunkaseyo_dedicated_free(record: &mut [u64; 3], id: u64) -> u64
    ensures { (result, «record».new) ≡ record_out (free_in (record_of «record».old) id) }
{
    let answer = dedicated_by_value::free(DedicatedBlock::from(*record), id);
    give_record(answer, record)
}

#[unsafe(no_mangle)]
pub extern "C" fn lunkaseyo_dedicated_rename_allocation(
    record: &mut [u64; 3],
    id: u64,
    label: u64,
) -> u64
    ensures { (result, «record».new) ≡ record_out (rename_in (record_of «record».old) id label) }
{
    let answer = dedicated_by_value::rename_allocation(DedicatedBlock::from(*record), id, label);
    give_record(answer, record)
}
