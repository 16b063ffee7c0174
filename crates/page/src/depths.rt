// How deep in the book each state lies: one more than the length of its earliest history, and 0 where no history leads to it. Each state that the search finds lies
// one deeper than the state that it was found from, so that no history is walked. The depths take the places of the numbers that the search leaves.
ghost use Rattle.std.specs.Prelude.{◌≡◌, ◌*◌, ◌≤◌, ◌<◌, length, replicate};
ghost use Rattle.definitions.specs.Book as B;
ghost use Rattle.page.specs.Depths.{SearchedPlaces, DepthsNoted, DepthsOf};

use book::Book;
use search::explore_book;

// Notes the depths of the `n` states in `order`, found by a search.
fn note_depths(order: &[u8], trail: &[u8], n: usize, depths: &mut [u8])
    requires { SearchedPlaces order.now trail.now n (length depths.old) × (1 ≤ n) × DepthsNoted order.now trail.now n 0 depths.old }
    ensures { DepthsNoted order.now trail.now n n depths.new }
{
    depths[usize::from(order[0])] = 1;
    for k in 1..n {
        let parent = usize::from(trail[2 * k]);
        let before = depths[usize::from(order[parent])];
        depths[usize::from(order[k])] = before + 1;
    }
}

// The depths of all states of a book, by a search with room for fewer than N states.
fn find_in<const N: usize, const M: usize>(book: Book, depths: &mut [u8])
    requires sizes { (2 ≤ N) × (N ≤ 128) × (M ≡ 2 * N) }
    requires room { B.states book.bytes.now < N }
    requires zeros { depths.old ≡ replicate N 0 }
    ensures { DepthsOf book.entry.bytes.now depths.new }
{
    let mut order = [0; N];
    let mut trail = [0; M];
    let n = explore_book(book.bytes, book.width, &mut order, &mut trail, depths);
    note_depths(&order, &trail, n, depths);
}

// The depths of all states of a book. A search with room for few states is sooner cleared.
pub fn find_depths(book: Book, depths: &mut [u8])
    requires { depths.old ≡ replicate 128 0 }
    ensures { DepthsOf book.entry.bytes.now depths.new }
{
    if book.states() < 16 {
        find_in::<16, 32>(book, &mut depths[..16]);
    } else {
        find_in::<128, 256>(book, depths);
    }
}
