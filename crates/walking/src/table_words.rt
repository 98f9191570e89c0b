// Words that are as many as a table has, lent to be read.
ghost use Rattle.std.specs.Prelude.{true, ◌≡◌};
ghost use Rattle.table.specs.Layout.{is_table};

#[derive(Clone, Copy)]
pub struct TableWords<'a> {
    pub words: &'a [u64],
    ghost table: { is_table words.now ≡ true },
}
