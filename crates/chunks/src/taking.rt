// A chunk as a whole: a free one becomes live, a live one free.
ghost use Rattle.std.specs.Prelude.{◌≢◌, ◌≡◌, ◌+◌, ◌≤◌, ◌<◌, ◌^◌, set};
ghost use Rattle.model.specs.Block.{Spot};
ghost use Rattle.table.specs.Layout.{Slot, at, allocated_word, size_at};
ghost use Rattle.words.specs.Words.{encode, block_of};
ghost use Rattle.chunks.specs.Premises.{FreeIn, LiveIn};
ghost use Rattle.chunks.specs.Steps.{taken_whole, set_free};

use stores;
use table::layout;
use table::layout::Field;

// What a chunk is marked with: the kind and the label of what it was asked for, 0 and 0 where it is free.
#[derive(Clone, Copy, Default)]
pub struct Mark {
    pub kind: u64,
    pub label: u64,
}

fn set_mark(w: &mut [u64], k: u64, mark: Mark)
    requires { Slot w.old k }
    ensures { w.new ≡ set (set w.old (at k 3) mark.kind) (at k 4) mark.label }
{
    stores::set_word(w, k, Field::Kind, mark.kind);
    stores::set_word(w, k, Field::Label, mark.label);
}

pub fn take_whole(w: &mut [u64], k: u64, mark: Mark)
    requires { Slot w.old k × (allocated_word w.old + size_at w.old k < 2 ^ 64) }
    ensures { (z : Spot) → FreeIn w.old k z → mark.kind ≢ 0
        → w.new ≡ encode (taken_whole mark.kind mark.label z (block_of w.old)) }
{
    let size = layout::word(w, k, Field::Size);
    stores::raise_allocated(w, size);
    set_mark(w, k, mark);
}

pub fn set_free(w: &mut [u64], k: u64)
    requires { Slot w.old k × (size_at w.old k ≤ allocated_word w.old) }
    ensures { (z : Spot) → LiveIn w.old k z → w.new ≡ encode (set_free z (block_of w.old)) }
{
    let size = layout::word(w, k, Field::Size);
    stores::lower_allocated(w, size);
    set_mark(w, k, Mark::default());
}
