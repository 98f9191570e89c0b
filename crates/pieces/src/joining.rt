// Two free neighbours become one.
ghost use Rattle.std.specs.Prelude.{List, ◌≡◌};
ghost use Rattle.model.specs.Block.{Chunk};
ghost use Rattle.words.specs.Words.{encode, block_of};
ghost use Rattle.chunks.specs.Premises.{TwoFree};
ghost use Rattle.pieces.specs.Premises.{CanJoin};
ghost use Rattle.pieces.specs.Steps.{joined};

use crate::links;
use stores;
use stores::Row;
use table::layout;
use table::layout::Field;

// The free chunk in slot k takes in the chunk after it, whose slot is empty then.
pub fn join(w: &mut [u64], k: u64)
    requires { CanJoin w.old k }
    ensures { (left : List Chunk) (c d : Chunk) (right : List Chunk) → TwoFree w.old k left c d right
        → w.new ≡ encode (joined left c d right (block_of w.old)) }
{
    let n = layout::word(w, k, Field::Next);
    let after = layout::word(w, n, Field::Next);
    let size = layout::word(w, k, Field::Size) + layout::word(w, n, Field::Size);
    stores::set_row(w, n, Row::default());
    stores::set_word(w, k, Field::Size, size);
    stores::set_word(w, k, Field::Next, after);
    links::set_previous_of(w, after, k);
}
