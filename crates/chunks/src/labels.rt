// The label of a chunk.
ghost use Rattle.std.specs.Prelude.{◌≡◌};
ghost use Rattle.model.specs.Block.{Spot};
ghost use Rattle.table.specs.Layout.{Slot};
ghost use Rattle.words.specs.Spots.{InSlot};
ghost use Rattle.words.specs.Words.{encode, block_of};
ghost use Rattle.chunks.specs.Steps.{relabelled};

use stores;
use table::layout::Field;

pub fn relabel(w: &mut [u64], k: u64, label: u64)
    requires { Slot w.old k }
    ensures { (z : Spot) → InSlot w.old k z → w.new ≡ encode (relabelled label z (block_of w.old)) }
{
    stores::set_word(w, k, Field::Label, label);
}
