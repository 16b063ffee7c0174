// The first state of a book that is a goal, in the order of earliest histories: a breadth-first search that ends where such a state is found.
ghost use Rattle.std.specs.Prelude.{◌≡◌, false, ◌*◌, ◌≤◌, ◌<◌, length};
ghost use Rattle.definitions.specs.Book as B;
ghost use Rattle.search.specs.Found.{started};
ghost use Rattle.search.specs.Searched.{found_by, CanVisit};
ghost use Rattle.way.specs.FirstState.{rows_of, is_goal, NoneFound, VisitedFor, next_length, next_end, FirstState, Shows};

use crate::goal::Goal;
use search::Search;

// The codes are tried, in order, from the state at a place, until one leads to a new state that is a goal. Whether one does.
fn visit_for<const N: usize, const M: usize>(
    search: &mut Search<N, M>,
    goal: Goal,
    place: usize,
) -> bool
    requires none_found { NoneFound goal search.old }
    requires can_visit { CanVisit (rows_of goal) (B.width goal.book.bytes.now) search.old place }
    requires room { B.states goal.book.bytes.now < N }
    ensures { VisitedFor goal.entry search.old place result search.new }
{
    let state = search.state(place);
    for code in 0..goal.book.width {
        let there = goal.book.entry(state, code);
        let is_new = search.note(there, place, code);
        if is_new && goal.is_met_at(there) {
            return true;
        }
    }
    false
}

// The states that a search finds after so many codes, as far as they are still to be visited: those before place `end` after `length` codes, and those from it on
// after one more.
#[derive(Clone, Copy)]
struct Level {
    length: usize,
    end: usize,
}

// The level once the states before place `i` have been visited and `n` are found.
fn next_level(level: Level, i: usize, n: usize) -> Level
    requires { level.length ≤ 127 }
    ensures { (result.length ≡ next_length level.length level.end i) × (result.end ≡ next_end level.end i n) }
{
    if i < level.end {
        return level;
    }
    Level {
        length: level.length + 1,
        end: n,
    }
}

// Searches until a state is found that is a goal, which the start is not, and tells how many codes lead to it: it is the last that is found. Where all states are
// found and none is a goal the search is over.
fn first_state<const N: usize, const M: usize>(
    search: &mut Search<N, M>,
    goal: Goal,
) -> Option<usize>
    requires start { is_goal goal 1 ≡ false }
    requires begun { found_by search.old ≡ started }
    requires room { B.states goal.book.bytes.now < N }
    ensures { FirstState goal.entry result search.new }
{
    let all = goal.book.states();
    let mut level = Level { length: 0, end: 1 };
    let mut i = 0;
    // The number of states found grows as they are visited.
    while i < search.count() {
        if all <= search.count() {
            return None;
        }
        if visit_for(search, goal, i) {
            return Some(level.length + 1);
        }
        i += 1;
        level = next_level(level, i, search.count());
    }
    None
}

// The way, where the start is no goal, by a search with room for fewer than N states. It stays apart: as part of `way` its loops are not aligned, and how long
// they take depends on the place of the library in a program.
#[inline(never)]
pub fn show_in<const N: usize, const M: usize>(goal: Goal, history: &mut [u8]) -> Option<usize>
    requires sizes { (2 ≤ N) × (N ≤ 128) × (M ≡ 2 * N) }
    requires start { is_goal goal 1 ≡ false }
    requires room { (B.states goal.book.bytes.now < N) × (128 ≤ length history.old) }
    ensures { Shows goal.entry result history.old history.new }
{
    let mut search = Search::<N, M>::new();
    let length = first_state(&mut search, goal)?;
    let last = search.count() - 1;
    search.write_codes(last, length, history);
    Some(length)
}
