// Sets of states as words, to tell which rows a round of refinement need not compare. States 2k and 2k + 1 share bit k.
ghost use Rattle.std.specs.Prelude.{◌≡◌, cond, not, ◌<◌, ◌≤◌, eqb, length};
ghost use Rattle.definitions.specs.Rows.{EntriesBelow};
ghost use Rattle.refine.specs.StateWords.{with_state, leads_to, RowWords};

use crate::table::Table;

// The word that has every state.
pub const ALL_STATES: u64 = u64::MAX;

// A word with state `x` put in.
fn with_state(word: u64, x: usize) -> u64
    requires { x < 128 }
    ensures { result ≡ with_state x word }
{
    let bit = x / 2;
    word | (1u64 << bit)
}

// The word of the states that a row leads to.
fn leads_to(row: &[u8]) -> u64
    requires { EntriesBelow row.now (length row.now) 128 }
    ensures { result ≡ leads_to row.now (length row.now) }
{
    let mut word = 0;
    for x in row {
        word = with_state(word, usize::from(*x));
    }
    word
}

// The words of a table's rows: that of state s at place s.
pub fn fill_leads(table: Table, leads: &mut [u64])
    requires { (table.states < length leads.old) × (length leads.old ≤ 128) }
    ensures { RowWords table.entry.rows.now table.entry.width table.entry.states leads.new }
{
    for i in 0..table.states {
        leads[i + 1] = leads_to(table.row(i + 1));
    }
}

// A word with state `x` put in if its class has changed.
pub fn with_moved(word: u64, x: usize, old: usize, new: usize) -> u64
    requires { x < 128 }
    ensures { result ≡ cond (not (eqb old new)) (with_state x word) word }
{
    if old == new {
        return word;
    }
    with_state(word, x)
}
