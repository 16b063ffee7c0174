// A table of states as it lies in memory.
ghost use Rattle.std.specs.Prelude.{◌≡◌, ◌-◌, ◌≤◌, suc, length};
ghost use Rattle.definitions.specs.Rows.{TableIn, EntriesBelow, row_in};

// `states` rows of `width` entries, one after another; an entry is the number of a state, from 1 on, or 0. What lies behind the rows is no part of the table.
#[derive(Clone, Copy)]
pub struct Table<'a> {
    pub rows: &'a [u8],
    pub width: usize,
    pub states: usize,
    pub ghost well_formed: { TableIn rows.now states width },
}

impl<'a> Table<'a> {
    // The row of state `s`.
    pub fn row(self, s: usize) -> &'a [u8]
        requires { (1 ≤ s) × (s ≤ self.states) }
        ensures value { result.now ≡ row_in self.entry.rows.now self.entry.width (s - 1) }
        ensures entries { (length result.now ≡ self.entry.width) × EntriesBelow result.now self.entry.width (suc self.entry.states) }
    {
        let at = (s - 1) * self.width;
        &self.rows[at..at + self.width]
    }
}
