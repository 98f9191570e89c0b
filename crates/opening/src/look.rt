// What every call but creation looks at first.
ghost use Rattle.std.specs.Prelude.{◌≡◌, IfOk};
ghost use Rattle.refusals.specs.Refusals.{fault_of};
ghost use Rattle.opening.specs.Look.{table_fault};

use refusals::Refusal;
use soundness;
use table::layout;
use words::sound::SoundTable;

// The words as a sound table: refused where they are no table, and then where the table is not sound.
#[tactic(auto, unfolding(crate::specs::Look::table_fault))]
pub fn sound_table<'a>(words: &'a [u64]) -> Result<SoundTable<'a>, Refusal>
    ensures fault { fault_of result ≡ table_fault words.now }
    ensures same { IfOk result (λ t. t.words ≡ words.entry) }
{
    if !layout::is_table(words) {
        return Err(Refusal::WordCount);
    }
    if !soundness::is_sound(words) {
        return Err(Refusal::Unsound);
    }
    Ok(SoundTable { words })
}
