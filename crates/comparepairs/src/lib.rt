// The search for a difference of two books: breadth-first over pairs of states, one of each book, with labels (Hopcroft and Karp). The states of a
// queued pair get one label, and a pair of one label is not queued, so that there are at most as many pairs as states.
#![tactic(auto)]

ghost use Rattle.std.specs.Prelude.{◌≡◌, true, false, ◌+◌, ◌*◌, ◌≤◌, ◌<◌, length, get_or};
ghost use Rattle.definitions.specs.Book as B;
ghost use Rattle.comparepairs.specs.PairSearch.{Both};

use book::Book;
use comparelabels::{begin_labels, first_unlike, merge};
use search::put;

// Where two books differ: by a code of the pair at a place of the queue.
#[derive(Clone, Copy, Debug, PartialEq, Eq, Hash)]
pub struct Difference {
    pub place: usize,
    pub code: usize,
}

// Whether both states of a pair can take code c; not if c is the width.
fn both(one: &[u8], other: &[u8], c: usize) -> bool
    requires { length other.now ≡ length one.now }
    ensures { (result ≡ true → Both one.now other.now c) × (result ≡ false → Both one.now other.now c → ⊥) }
{
    c < one.len() && 0 < one[c] && 0 < other[c]
}

// The pairs found, and the labels of the states. The queue has two bytes a place: pair k has its parent's place and its code at place k, as a trail has them, and
// its states at place label.len() + k. Each of the two arrays has a lifetime of its own, so that its owner knows what it holds once the pairs are gone.
#[derive(Drop)]
pub struct PairQueue<'q, 'l> {
    queue: &'q mut [u8],
    label: &'l mut [u8],
    pairs: usize,
    pub ghost sizes: { (length label.now ≤ 256) × (4 * length label.now ≤ length queue.now) },
}

impl<'q, 'l> PairQueue<'q, 'l> {
    ghost use Rattle.search.specs.Trail.{placed};
    ghost use Rattle.comparelabels.specs.LabelBytes.{label_at, merged, OwnFrom};
    ghost use Rattle.comparelabels.specs.RowLabels.{RowPair};
    ghost use Rattle.comparepairs.specs.PairSearch.{Spotted};
    ghost use Rattle.comparepairs.specs.Pairs.{Begun, SearchAt, Outcome};

    // The first pair, of the two starts, and the labels.
    pub fn new(first: Book, queue: &'q mut [u8], label: &'l mut [u8]) -> Self
        requires room { B.states first.bytes.now + 2 < length label.old }
        requires sizes { (length label.old ≤ 256) × (4 * length label.old ≤ length queue.old) }
        ensures begun { Begun (B.states first.entry.bytes.now + 1) result }
        ensures labels { length result.label.now ≡ length label.old }
        ensures same_queue { result.queue.ghost_name ≡ queue.entry.ghost_name }
        ensures same_label { result.label.ghost_name ≡ label.entry.ghost_name }
    {
        put(queue, label.len(), 1, 1);
        begin_labels(label, first.states() + 1);
        PairQueue {
            queue,
            label,
            pairs: 1,
        }
    }

    // The histories of the pairs.
    pub fn trail(&self) -> &[u8]
        ensures { result.now ≡ self.now.queue.now }
    {
        self.queue
    }

    // Queues the pair that code c leads to from pair i, and merges the labels of its states.
    fn add_pair(&mut self, one: &[u8], other: &[u8], i: usize, c: usize)
        requires row_pair { RowPair one.now other.now (label_at self.old.label.now 0) self.old.label.now × OwnFrom (label_at self.old.label.now 0) self.old.label.now }
        requires both { Both one.now other.now c × (c < 256) × (i < 256) × (self.old.pairs < length self.old.label.now) }
        ensures pairs_after { self.new.pairs ≡ self.old.pairs + 1 }
        ensures queue_after { self.new.queue.now ≡ placed (placed self.old.queue.now self.old.pairs i c) (length self.old.label.now + self.old.pairs) (get_or one.now c 0) (get_or other.now c 0) }
        ensures label_after { self.new.label.now ≡ merged self.old.label.now (get_or one.now c 0) (label_at self.old.label.now 0 + get_or other.now c 0) }
        ensures same_queue { self.new.queue.ghost_name ≡ self.old.queue.ghost_name }
        ensures same_label { self.new.label.ghost_name ≡ self.old.label.ghost_name }
    {
        let m = self.pairs;
        let x = one[c];
        let y = other[c];
        put(self.queue, m, i as u8, c as u8);
        put(self.queue, self.label.len() + m, x, y);
        merge(self.label, usize::from(x), usize::from(y));
        self.pairs = m + 1;
    }

    // Tries the codes of pair i, up to the first that just one of its states can take, which is returned. Codes that lead to two states of one label, or that
    // neither state can take, are passed over.
    fn try_pair(&mut self, first: Book, second: Book, i: usize) -> Option<usize>
        requires pair_search { SearchAt first.bytes.now second.bytes.now i 0 self.old }
        requires i_is_a_pair { i < self.old.pairs }
        ensures outcome { Outcome first.entry.bytes.now second.entry.bytes.now i result self.new }
        ensures same_queue { self.new.queue.ghost_name ≡ self.old.queue.ghost_name }
        ensures same_label { self.new.label.ghost_name ≡ self.old.label.ghost_name }
    {
        let place = 2 * (self.label.len() + i);
        let one = first.row(usize::from(self.queue[place]));
        let other = second.row(usize::from(self.queue[place + 1]));
        let mut c = 0;
        // The code to go on from follows from the labels, which each pair that is queued changes.
        loop {
            let label = &mut *self.label;
            let code = first_unlike(one, other, label, c);
            if !both(one, other, code) {
                return (code < one.len()).then_some(code);
            }
            self.add_pair(one, other, i, code);
            c = code + 1;
        }
    }

    // Where two books of one frame differ, if they do. The history of the place found stands in the trail.
    pub fn first_difference(&mut self, first: Book, second: Book) -> Option<Difference>
        requires same_width { B.width first.bytes.now ≡ B.width second.bytes.now }
        requires room { B.states first.bytes.now + 1 + B.states second.bytes.now < length self.old.label.now }
        requires begun { Begun (B.states first.bytes.now + 1) self.old }
        ensures spotted { Spotted first.entry.bytes.now second.entry.bytes.now self.new.queue.now result }
        ensures same_queue { self.new.queue.ghost_name ≡ self.old.queue.ghost_name }
        ensures same_label { self.new.label.ghost_name ≡ self.old.label.ghost_name }
    {
        let mut i = 0;
        // The number of pairs grows as their codes are tried.
        while i < self.pairs {
            let tried = self.try_pair(first, second, i);
            if let Some(code) = tried {
                return Some(Difference { place: i, code });
            }
            i += 1;
        }
        None
    }
}
