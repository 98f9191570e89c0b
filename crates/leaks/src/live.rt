// The first live chunk that begins at an address or later.
ghost use Rattle.std.specs.Prelude.{◌≡◌, Ok, Some};
ghost use Rattle.laws.specs.Reply.{accepted};
ghost use Rattle.table.specs.Layout.{Slot};
ghost use Rattle.words.specs.Words.{block_of};
ghost use Rattle.leaks.specs.Leaks.{reply_leak, handed_out, live_from, leak_on};
ghost use Rattle.leaks.specs.Lives.{live_at};
ghost use Rattle.leaks.specs.LiveSlots.{is_from_at};

use crate::leak::Leak;
use opening::look;
use refusals::Refusal;
use table::layout;
use table::layout::{Field, HeadField};
use words::sound::SoundTable;

// Whether the chunk in slot k is live and begins at the address or later.
#[tactic(auto, unfolding(crate::specs::LiveSlots::is_from_at))]
fn is_from(w: &[u64], k: u64, address: u64) -> bool
    requires { Slot w.now k }
    ensures { result ≡ is_from_at w.now k address }
{
    !layout::is_free(w, k) && address <= layout::word(w, k, Field::FirstByte)
}

// What is handed out of the chunk in slot k.
fn leak_at(w: &[u64], k: u64) -> Leak
    requires { Slot w.now k }
    ensures { reply_leak (Ok (Some result)) ≡ accepted (Some (live_at w.now k)) }
{
    Leak {
        id: layout::word(w, k, Field::Id),
        first_byte: layout::word(w, k, Field::FirstByte),
        size: layout::word(w, k, Field::Size),
        kind: layout::word(w, k, Field::Kind),
        label: layout::word(w, k, Field::Label),
    }
}

// That chunk of a sound table, if there is one.
fn first_from(table: SoundTable, address: u64) -> Option<Leak>
    ensures { reply_leak (Ok result) ≡ accepted (handed_out (live_from address (block_of table.entry.words.now))) }
{
    let mut k = layout::head(table.words, HeadField::FirstSlot);
    // a link of 0 is none, as the table has it: an Option would be made and at once taken apart
    while k != 0 {
        if is_from(table.words, k, address) {
            return Some(leak_at(table.words, k));
        }
        k = layout::word(table.words, k, Field::Next);
    }
    None
}

#[tactic(auto, using(words::proofs::Written::sound_is_table, crate::proofs::Handing::not_looked, crate::proofs::Handing::handed))]
pub fn live_from(words: &[u64], address: u64) -> Result<Option<Leak>, Refusal>
    ensures { reply_leak result ≡ leak_on words.now address }
{
    let table = look::sound_table(words)?;
    Ok(first_from(table, address))
}
