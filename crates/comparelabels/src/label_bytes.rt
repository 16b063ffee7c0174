// Labels, a byte for each number. State x of the first book has the number x, state y of the second base + y, and 0 and base are no state; base is the
// label of both, so that it is read at place 0.
ghost use Rattle.std.specs.Prelude.{◌≡◌, map, ◌+◌, ◌≤◌, ◌<◌, length};
ghost use Rattle.automaton.specs.Below.{list_below};
ghost use Rattle.comparelabels.specs.LabelBytes.{itself, label_at, begun_labels, moved as moved_to, merged, OwnFrom};

// Gives each number its own label.
fn own_labels(label: &mut [u8])
    requires { length label.old ≤ 256 }
    ensures { label.new ≡ list_below (length label.old) itself }
{
    for u in 0..label.len() {
        label[u] = u as u8;
    }
}

// The labels at the beginning: each number has its own, but 0 has that of base, and the second start that of the first.
pub fn begin_labels(label: &mut [u8], base: usize)
    requires { (base + 1 < length label.old) × (length label.old ≤ 256) }
    ensures { label.new ≡ begun_labels base (length label.old) }
{
    own_labels(label);
    label[0] = base as u8;
    label[base + 1] = 1;
}

// Gives the label of state x of the first book to state y of the second and to each number of its label. A label from base on is a number's that no other
// shares, so that one store does it.
pub fn merge(label: &mut [u8], x: usize, y: usize)
    requires own_from { OwnFrom (label_at label.old 0) label.old }
    requires x_in_bounds { (x < length label.old) × (0 < y) × (label_at label.old 0 + y < length label.old) }
    ensures { label.new ≡ merged label.old x (label_at label.old 0 + y) }
{
    let base = usize::from(label[0]);
    let to = label[x];
    let from = label[base + y];
    if base <= usize::from(from) {
        label[base + y] = to;
        return;
    }
    relabel(label, from, to);
}

// Gives the label `to` to each number whose label is `from`; the others keep theirs.
fn relabel(label: &mut [u8], from: u8, to: u8)
    ensures { label.new ≡ map (moved_to from to) label.old }
{
    for l in label.iter_mut() {
        *l = moved(from, to, *l);
    }
}

// The label that a number has then.
fn moved(from: u8, to: u8, x: u8) -> u8
    ensures { result ≡ moved_to from to x }
{
    if x == from {
        return to;
    }
    x
}
