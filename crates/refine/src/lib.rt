// The classes of a table's alike states, by rounds of refinement (Moore's algorithm). An array has class 0 of "not possible" first, then the class of each state; a class has
// the number of its first state.
#![tactic(auto)]

pub mod table;
mod words;

ghost use Rattle.std.specs.Prelude.{◌≡◌, ◌<◌, ◌≤◌, suc, map, length, take};
ghost use Rattle.automaton.specs.Below.{same_list};
ghost use Rattle.definitions.specs.Bytes.{byte};
ghost use Rattle.definitions.specs.Rows.{EntriesBelow};
ghost use Rattle.refine.specs.Classes.{last_round};
ghost use Rattle.refine.specs.Rounds.{InRounds, KeptClasses, one_class, is_first, is_first_alike};
ghost use Rattle.refine.specs.StateWords.{moved_states};

use crate::table::Table;
use crate::words::{ALL_STATES, fill_leads, with_moved};

// Whether two rows lead to the same classes.
fn same_classes(row: &[u8], other: &[u8], classes: &[u8]) -> bool
    requires { (length row.now ≡ length other.now) × EntriesBelow row.now (length row.now) (length classes.now) × EntriesBelow other.now (length other.now) (length classes.now) }
    ensures { result ≡ same_list (map (byte classes.now) row.now) (map (byte classes.now) other.now) }
{
    // The other row by index: a zip of the two is slower by a seventh on short rows.
    for (c, x) in row.iter().enumerate() {
        if classes[usize::from(*x)] != classes[usize::from(other[c])] {
            return false;
        }
    }
    true
}

// A round as it begins: a table, for each state the word of the states that its row leads to, its class after the rounds so far, and the word of the states
// that the last of them moved.
#[derive(Clone, Copy)]
struct Round<'a> {
    table: Table<'a>,
    leads: &'a [u64],
    classes: &'a [u8],
    moved: u64,
    ghost class_of_each: { length classes.now ≡ suc table.states },
    ghost in_rounds: { ∥ InRounds table.rows.now table.width classes.now ∥₁ },
    ghost kept: { KeptClasses table.rows.now table.width leads.now moved classes.now },
}

impl<'a> Round<'a> {
    ghost use Rattle.refine.specs.NextClasses.{next_classes};

    // Whether state `t` is the first of a new class inside the present class of state `s`.
    fn is_first(&self, next: &[u8], s: usize, t: usize) -> bool
        requires { (t < s) × (s < length self.now.classes.now) × (length next.now ≡ length self.now.classes.now) }
        ensures { result ≡ is_first self.now.classes.now next.now s t }
    {
        self.classes[t] == self.classes[s] && usize::from(next[t]) == t
    }

    // The same, and whether it leads to the same classes.
    fn is_first_alike(&self, next: &[u8], s: usize, t: usize) -> bool
        requires { (1 ≤ t) × (t < s) × (s < length self.now.classes.now) × (length next.now ≡ length self.now.classes.now) }
        ensures { result ≡ is_first_alike self.now.table.rows.now self.now.table.width self.now.classes.now next.now s t }
    {
        self.is_first(next, s, t)
            && same_classes(self.table.row(t), self.table.row(s), self.classes)
    }

    // The new class of state `s`: the first state that leads to the same classes. Only the first states of new classes inside its present class are compared,
    // since a round divides classes and never joins them. `next` has the new classes of the states before it.
    fn first_alike(&self, next: &[u8], s: usize) -> usize
        requires s_in_bounds { (1 ≤ s) × (s < length self.now.classes.now) × (length next.now ≡ length self.now.classes.now) }
        requires next_value { take s next.now ≡ take s (next_classes self.now) }
        ensures { result ≡ byte (next_classes self.now) s }
    {
        for t in usize::from(self.classes[s])..s {
            if self.is_first_alike(next, s, t) {
                return t;
            }
        }
        s
    }

    // The same, without a search where the state keeps its class: neither it nor the first state of its class leads to a state that the round before moved.
    fn next_class(&self, next: &[u8], s: usize) -> usize
        requires s_in_bounds { (1 ≤ s) × (s < length self.now.classes.now) × (length next.now ≡ length self.now.classes.now) }
        requires next_value { take s next.now ≡ take s (next_classes self.now) }
        ensures { result ≡ byte (next_classes self.now) s }
    {
        let t = usize::from(self.classes[s]);
        if (self.leads[s] | self.leads[t]) & self.moved == 0 {
            return t;
        }
        self.first_alike(next, s)
    }

    // The new class of each state, in `next`. Returns the word of the states that moved to another class.
    fn divide(&self, next: &mut [u8]) -> u64
        requires { length next.old ≡ length self.now.classes.now }
        ensures value { result ≡ moved_states self.now.classes.now (next_classes self.now) }
        ensures next_after { next.new ≡ next_classes self.now }
    {
        next[0] = 0;
        let mut word = 0;
        for s in 1..self.classes.len() {
            let class = self.next_class(next, s);
            next[s] = class as u8;
            word = with_moved(word, s, usize::from(self.classes[s]), class);
        }
        word
    }
}

// The classes of alike states: rounds until one moves no state. Before the first all states are in class 1. `next` is room for a round.
pub fn refine_all(table: Table, classes: &mut [u8], next: &mut [u8])
    requires lengths { (length classes.old ≡ suc table.states) × (length classes.old ≤ 128) × (length next.old ≡ length classes.old) }
    requires one_class { classes.old ≡ one_class (length classes.old) }
    ensures { classes.new ≡ last_round table.entry.rows.now table.entry.width classes.old }
{
    let mut leads = [0u64; 128];
    fill_leads(table, &mut leads);
    let mut moved = ALL_STATES;
    // To a fixed point: how many rounds there are is not known before.
    while moved != 0 {
        let round = Round {
            table,
            leads: &leads,
            classes,
            moved,
        };
        moved = round.divide(next);
        classes.copy_from_slice(next);
    }
}
