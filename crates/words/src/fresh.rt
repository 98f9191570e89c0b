// A fresh table: next id 2 and one free chunk, id 1, in slot 1; every other slot is empty.
ghost use Rattle.std.specs.Prelude.{true, ◌≡◌};
ghost use Rattle.model.specs.Block.{fresh};
ghost use Rattle.table.specs.Layout.{is_table, slot_count};
ghost use Rattle.words.specs.Words.{encode};

use stores;
use table::layout::{Field, HeadField};

// Writes every word, whatever was there.
pub fn write_fresh(w: &mut [u64], size: u64)
    requires { is_table w.old ≡ true }
    ensures { w.new ≡ encode (fresh size (slot_count w.old)) }
{
    w.fill(0);
    stores::set_head(w, HeadField::BlockSize, size);
    stores::set_head(w, HeadField::NextId, 2);
    stores::set_head(w, HeadField::FirstSlot, 1);
    stores::set_word(w, 1, Field::Id, 1);
    stores::set_word(w, 1, Field::Size, size);
}
