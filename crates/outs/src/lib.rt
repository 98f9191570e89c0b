// What stands for an answer at the boundary: its number is given back, and the values asked for are written, zeros on a refusal.
#![tactic(auto)]

ghost use Rattle.std.specs.Prelude.{◌≡◌};
ghost use Rattle.refusals.specs.Refusals.{reply};
ghost use Rattle.outs.specs.Outs.{value_out, flag_out, placement_out};

use refusals::Refusal;
use sub_allocator::answers::Placement;

pub fn give_value(answer: Result<u64, Refusal>, value: &mut u64) -> u64
    ensures { (result, value.new) ≡ value_out (reply answer) }
{
    let Ok(given) = answer else {
        *value = 0;
        return refusals::number(&answer);
    };
    *value = given;
    0
}

// Yes is 1, and no is 0.
pub fn give_flag(answer: Result<bool, Refusal>, flag: &mut u64) -> u64
    ensures { (result, flag.new) ≡ flag_out (reply answer) }
{
    give_value(answer.map(u64::from), flag)
}

pub fn give_placement(answer: Result<Placement, Refusal>, offset: &mut u64, id: &mut u64) -> u64
    ensures { (result, offset.new, id.new) ≡ placement_out (reply answer) }
{
    let Ok(given) = answer else {
        *offset = 0;
        *id = 0;
        return refusals::number(&answer);
    };
    *offset = given.offset;
    *id = given.id;
    0
}
