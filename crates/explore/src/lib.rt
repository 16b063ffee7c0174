// Breadth-first search over the situations of a policy, by its table of images. A slice holds a situation as its word.
#![tactic(auto)]

ghost use Rattle.std.specs.Prelude.{◌≡◌, ◌+◌, ◌*◌, ◌%◌, ◌<◌, ◌≤◌, eqb, length, take, position, IfSome, MatchOption};
ghost use Rattle.automaton.specs.Below.{place_of};
ghost use Rattle.definitions.specs.Answer.{written};
ghost use Rattle.definitions.specs.Bytes.{byte};
ghost use Rattle.explore.specs.SetImages.{unions, with_images, images_of_set, images_machine};
ghost use Rattle.automaton.specs.StateList.{number_among, add_state};
ghost use Rattle.explore.specs.Reaches.{Once, Hinted, positive, is_number, VisitedByImages, RowsFit, Reaches};

use situation::Situation;

// Each set of the row gets the valuations of the one at its place in `more`. The loop has no branch, so that it is compiled to vector instructions.
fn unite(next: &mut [u64], more: &[u64])
    requires { length next.old ≤ length more.now }
    ensures { next.new ≡ unions next.old more.now }
{
    for (c, set) in next.iter_mut().enumerate() {
        let old = Situation { set: *set };
        let united = old.plus(Situation { set: more[c] });
        *set = united.set;
    }
}

// A table of images: a row of `width` sets for each valuation below `valuations`, one after another, with the set that each code leads to from it.
#[derive(Clone, Copy)]
pub struct Images<'a> {
    pub sets: &'a [u64],
    pub valuations: usize,
    pub width: usize,
    pub ghost within: { (valuations ≤ 64) × (width ≤ 136) × (valuations * width ≤ length sets.now) },
}

impl Images<'_> {
    // The sets of the row, one for each code, get the images of valuation `v` if it is in the situation.
    fn add_images(self, situation: Situation, v: usize, next: &mut [u64])
        requires { (v < self.valuations) × (length next.old ≡ self.width) }
        ensures { next.new ≡ with_images self.entry.sets.now self.entry.width situation.set v next.old }
    {
        if situation.has(v) {
            let at = v * self.width;
            unite(next, &self.sets[at..]);
        }
    }

    // Where each code leads from a situation: the images of its valuations together.
    fn step_all(self, situation: Situation, next: &mut [u64])
        requires { length next.old ≡ self.width }
        ensures { next.new ≡ images_of_set self.entry.sets.now self.entry.valuations self.entry.width situation.set }
    {
        next.fill(Situation::EMPTY.set);
        for v in 0..self.valuations {
            self.add_images(situation, v, next);
        }
    }
}

// Where `x` stands among those found.
fn index_of(found: &[u64], x: Situation) -> Option<usize>
    ensures { result ≡ position (λ set. eqb set x.set) found.now }
{
    found.iter().position(|set| Situation { set: *set } == x)
}

// The number of `x` among those found, which counts from 1. No hint says that it is not there.
fn number_by(found: &[u64], x: Situation, hint: Option<usize>) -> Option<usize>
    requires { hint ≡ None → place_of (eqb x.set) found.now ≡ 0 }
    ensures { result ≡ positive (place_of (eqb x.set) found.now) }
{
    hint?;
    let index = index_of(found, x)?;
    Some(index + 1)
}

// Whether `x` stands at an index of those found.
fn stands_at(found: &[u64], x: Situation, index: usize) -> bool
    ensures { result ≡ is_number found.now (length found.now) x.set (index + 1) }
{
    index < found.len() && Situation { set: found[index] } == x
}

// The number of a state among the first `n` found, where a new one is put in after them. No hint says that it is new. The array and its count stand apart,
// here and below: fixed memory, which the caller has on its stack.
fn enter(found: &mut [u64], n: usize, x: Situation, hint: Option<usize>) -> usize
    requires { (n < length found.old) × (0 < x.set) × (hint ≡ None → place_of (eqb x.set) (take n found.old) ≡ 0) }
    ensures value { result ≡ number_among (add_state (take n found.old) x.set) x.set }
    ensures found_after { found.new ≡ written (add_state (take n found.old) x.set) found.old }
{
    if let Some(number) = number_by(&found[..n], x, hint) {
        return number;
    }
    found[n] = x.set;
    n + 1
}

// The same for a situation; none for the empty set. `hints` has, at a place that the set decides, the number that was found there last, and 0 only where none was:
// a hint is tried, and where it is wrong the search is made, but where there is none the set is new.
fn note(found: &mut [u64], n: usize, x: Situation, hints: &mut [u8; 256]) -> Option<usize>
    requires { (n < length found.old) × (n ≤ 127) × Once (take n found.old) × Hinted (take n found.old) hints.old }
    ensures value { result ≡ positive (number_among (add_state (take n found.old) x.set) x.set) }
    ensures found_after { found.new ≡ written (add_state (take n found.old) x.set) found.old }
    ensures hinted { Hinted (add_state (take n found.old) x.set) hints.new }
{
    if x.is_empty() {
        return None;
    }
    let at = (x.set % 251) as usize;
    let hint = usize::from(hints[at]).checked_sub(1);
    if let Some(index) = hint {
        if stands_at(&found[..n], x, index) {
            return Some(index + 1);
        }
    }
    let number = enter(found, n, x, hint);
    hints[at] = number as u8;
    Some(number)
}

// The codes are tried, in order, from a situation that was found: the row gets the numbers of the situations that they lead to, and new ones are put in
// after the first `n`. Returns how many are found then. It stops at the 128th: then there is no count, and neither list is whole. `next` is room to work in;
// nothing is said of what it holds afterwards.
fn visit(
    images: Images,
    found: &mut [u64],
    n: usize,
    situation: Situation,
    row: &mut [u8],
    next: &mut [u64],
    hints: &mut [u8; 256],
) -> Option<usize>
    requires room { (n ≤ 127) × (128 ≤ length found.old) × (images.width ≤ length row.old) × (length next.old ≡ images.width) }
    requires state { 0 < situation.set }
    requires hints_are_right { Once (take n found.old) × Hinted (take n found.old) hints.old }
    ensures visited { MatchOption result
        (VisitedByImages images.entry.sets.now images.entry.valuations images.entry.width situation.set (take n found.old) found.old row.old 128 found.new row.new)
        (λ r. (r ≤ 127) × VisitedByImages images.entry.sets.now images.entry.valuations images.entry.width situation.set (take n found.old) found.old row.old r found.new row.new) }
    ensures hinted { IfSome result (λ r. Hinted (take r found.new) hints.new) }
{
    images.step_all(situation, next);
    let mut k = n;
    for (c, set) in next.iter().enumerate() {
        let number = note(found, k, Situation { set: *set }, hints).unwrap_or(0);
        row[c] = number as u8;
        k = k.max(number);
        if 127 < k {
            return None;
        }
    }
    Some(k)
}

// The situations that histories from the start reach, in the order of their earliest history, with the rows of the table of their steps one after another
// in `raw`. Returns how many there are; none if there are over 127, and then nothing is said of what `found` and `raw` hold. `hints` has one for the start. It
// and `next` are room to work in; nothing is said of what they hold afterwards.
fn explore_in(
    images: Images,
    start: Situation,
    found: &mut [u64],
    raw: &mut [u8],
    next: &mut [u64],
    hints: &mut [u8; 256],
) -> Option<usize>
    requires start_is_hinted { (0 < start.set) × (1 ≤ byte hints.old (start.set % 251)) }
    requires room { (128 ≤ length found.old) × (length next.old ≡ images.width) }
    requires rows_fit { RowsFit (images_machine images.sets.now images.valuations images.width start.set) (length raw.old) }
    ensures { MatchOption result
        (Reaches (images_machine images.entry.sets.now images.entry.valuations images.entry.width start.set) found.old raw.old 0 found.new raw.new)
        (λ n. (0 < n) × Reaches (images_machine images.entry.sets.now images.entry.valuations images.entry.width start.set) found.old raw.old n found.new raw.new) }
{
    found[0] = start.set;
    let mut n = 1;
    let mut s = 0;
    // a `while`: `n` grows in the body
    while s < n {
        let situation = Situation { set: found[s] };
        let at = s * images.width;
        n = visit(images, found, n, situation, &mut raw[at..], next, hints)?;
        s += 1;
    }
    Some(n)
}

// The same, with arrays for room: the row of valuation `v` has `w` sets, from place `v * w` of `images` on.
pub fn explore(
    images: &[u64],
    valuations: usize,
    w: usize,
    start: Situation,
    found: &mut [u64],
    raw: &mut [u8],
) -> Option<usize>
    requires table { (valuations ≤ 64) × (w ≤ 136) × (valuations * w ≤ length images.now) }
    requires state { 0 < start.set }
    requires room { (128 ≤ length found.old) × RowsFit (images_machine images.now valuations w start.set) (length raw.old) }
    ensures { MatchOption result
        (Reaches (images_machine images.now valuations w start.set) found.old raw.old 0 found.new raw.new)
        (λ n. (0 < n) × Reaches (images_machine images.now valuations w start.set) found.old raw.old n found.new raw.new) }
{
    let table = Images {
        sets: images,
        valuations,
        width: w,
    };
    let mut next = [0u64; 136];
    let mut hints = [0u8; 256];
    hints[(start.set % 251) as usize] = 1;
    explore_in(table, start, found, raw, &mut next[..w], &mut hints)
}
