// A table whose words are sound, lent to be read.
ghost use Rattle.std.specs.Prelude.{true, ◌≡◌};
ghost use Rattle.words.specs.Words.{sound};

#[derive(Clone, Copy)]
pub struct SoundTable<'a> {
    pub words: &'a [u64],
    ghost sound: { sound words.now ≡ true },
}
