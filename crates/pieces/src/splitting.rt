// A free chunk in two: a new live piece on the left, the remainder on the right.
ghost use Rattle.std.specs.Prelude.{◌≢◌, ◌≡◌};
ghost use Rattle.model.specs.Block.{Spot};
ghost use Rattle.table.specs.Layout.{Slot};
ghost use Rattle.words.specs.Words.{encode, block_of};
ghost use Rattle.chunks.specs.Premises.{FreeIn, NoneIn};
ghost use Rattle.pieces.specs.Premises.{CanSplit};
ghost use Rattle.pieces.specs.Steps.{split_in_two};
ghost use Rattle.pieces.specs.Stores.{shortened};

use crate::links;
use chunks::taking::Mark;
use stores;
use stores::Row;
use table::layout;
use table::layout::Field;

// The new piece: the slot that it gets, how many bytes it has, and its mark.
#[derive(Clone, Copy)]
pub struct Piece {
    pub slot: u64,
    pub size: u64,
    pub mark: Mark,
}

// The chunk in slot k begins at first, after slot new, and has so many bytes.
#[tactic(auto, unfolding(crate::specs::Stores::shortened))]
fn shorten(w: &mut [u64], k: u64, first: u64, size: u64, new: u64)
    requires { Slot w.old k }
    ensures { w.new ≡ shortened w.old k first size new }
{
    stores::set_word(w, k, Field::Size, size);
    stores::set_word(w, k, Field::FirstByte, first);
    stores::set_word(w, k, Field::Previous, new);
}

// The first bytes of the free chunk in slot k become a live chunk, under the next id.
pub fn split_off(w: &mut [u64], k: u64, piece: Piece)
    requires { CanSplit w.old k piece.slot piece.size }
    ensures { (z : Spot) → FreeIn w.old k z → NoneIn w.old piece.slot → piece.mark.kind ≢ 0
        → w.new ≡ encode (split_in_two piece.slot piece.size piece.mark.kind piece.mark.label z (block_of w.old)) }
{
    let Piece { slot, size, mark } = piece;
    let first_byte = layout::word(w, k, Field::FirstByte);
    let left = layout::word(w, k, Field::Size) - size;
    let previous = layout::word(w, k, Field::Previous);
    let id = stores::spend_id(w);
    stores::raise_allocated(w, size);
    let row = Row {
        id,
        size,
        first_byte,
        kind: mark.kind,
        label: mark.label,
        next: k,
        previous,
    };
    stores::set_row(w, slot, row);
    links::set_next_of(w, previous, slot);
    shorten(w, k, first_byte + size, left, slot);
}
