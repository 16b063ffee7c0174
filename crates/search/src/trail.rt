// Histories kept as a trail: two bytes for each place of a queue, its parent's place and its code.
ghost use Rattle.std.specs.Prelude.{◌≡◌, suc, ◌+◌, ◌*◌, ◌≤◌, ◌<◌, length};
ghost use Rattle.definitions.specs.Answer.{written};
ghost use Rattle.automaton.specs.Parents.{EarlierParents};
ghost use Rattle.search.specs.Trail.{first_at, placed, history_at};

// Stores two bytes at place k.
pub fn put(places: &mut [u8], k: usize, x: u8, y: u8)
    requires { 2 * k + 1 < length places.old }
    ensures { places.new ≡ placed places.old k x y }
{
    places[2 * k] = x;
    places[2 * k + 1] = y;
}

// How many codes lead to place i.
fn history_length(trail: &[u8], i: usize) -> usize
    requires i_in_bounds { 2 * i + 1 < length trail.now }
    requires earlier_parents { EarlierParents (suc i) (first_at trail.now) }
    ensures { result ≡ length (history_at trail.now i) }
{
    let mut k = i;
    let mut n = 0;
    // From each place to its parent.
    while 0 < k {
        k = usize::from(trail[2 * k]);
        n += 1;
    }
    n
}

// Writes the codes that lead to place i, of which there are n, to the front of the buffer, the last first. The bytes after them are unchanged.
pub fn write_codes(trail: &[u8], i: usize, n: usize, buffer: &mut [u8])
    requires i_in_bounds { 2 * i + 1 < length trail.now }
    requires earlier_parents { EarlierParents (suc i) (first_at trail.now) }
    requires room { (i ≤ length buffer.old) × (n ≡ length (history_at trail.now i)) }
    ensures { buffer.new ≡ written (history_at trail.now i) buffer.old }
{
    let mut k = i;
    let mut j = n;
    // From each place to its parent.
    while 0 < k {
        j -= 1;
        buffer[j] = trail[2 * k + 1];
        k = usize::from(trail[2 * k]);
    }
}

// The same where the caller does not know how many codes there are. Returns their number.
pub fn write_history(trail: &[u8], i: usize, buffer: &mut [u8]) -> usize
    requires i_in_bounds { 2 * i + 1 < length trail.now }
    requires earlier_parents { EarlierParents (suc i) (first_at trail.now) }
    requires room { i ≤ length buffer.old }
    ensures value { result ≡ length (history_at trail.now i) }
    ensures buffer_after { buffer.new ≡ written (history_at trail.now i) buffer.old }
{
    let n = history_length(trail, i);
    write_codes(trail, i, n, buffer);
    n
}
