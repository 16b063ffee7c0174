// Two rows read side by side: the first place where their entries lead to states of two labels.
ghost use Rattle.std.specs.Prelude.{◌≡◌, ◌+◌, ◌≤◌, ◌<◌, length};
ghost use Rattle.comparelabels.specs.LabelBytes.{label_at};
ghost use Rattle.comparelabels.specs.RowLabels.{RowPair, SameLabel};
ghost use Rattle.comparelabels.specs.FirstFailing.{FirstFailing};

use bytewords::word;

// The rows, and the labels of their entries: entry x of `one` has the label at x, entry y of `other` that at base + y.
#[derive(Clone, Copy)]
struct LabelledRows<'a> {
    one: &'a [u8],
    other: &'a [u8],
    base: usize,
    label: &'a [u8],
    ghost row_pair: { RowPair one.now other.now base label.now },
}

impl LabelledRows<'_> {
    // The first place from `from` on, below `end`, at which the labels are two; `end` if there is none.
    fn unlike_before(self, from: usize, end: usize) -> usize
        requires from_le_end { (from ≤ end) × (end ≤ length self.one.now) }
        ensures { let rows = self.entry in FirstFailing (SameLabel rows.one.now rows.other.now rows.base rows.label.now) from end result }
    {
        for k in from..end {
            let x = usize::from(self.one[k]);
            let y = usize::from(self.other[k]);
            if self.label[x] != self.label[self.base + y] {
                return k;
            }
        }
        end
    }

    // The same for places among the eight before `end`. Where the entries of all eight are 0 they are passed over at once.
    fn unlike_of_eight(self, from: usize, end: usize) -> usize
        requires from_le_end { (from ≤ end) × (end ≤ from + 8) × (8 ≤ end) × (end ≤ length self.one.now) }
        ensures { let rows = self.entry in FirstFailing (SameLabel rows.one.now rows.other.now rows.base rows.label.now) from end result }
    {
        if word(self.one, end - 8) == 0 {
            if word(self.other, end - 8) == 0 {
                return end;
            }
        }
        self.unlike_before(from, end)
    }
}

// The first place from `from` on at which the labels are two; the width if there is none. The last places, fewer than eight, are read with those before them.
pub fn first_unlike(one: &[u8], other: &[u8], label: &[u8], from: usize) -> usize
    requires row_pair { RowPair one.now other.now (label_at label.now 0) label.now }
    requires from_in_bounds { from ≤ length one.now }
    ensures { FirstFailing (SameLabel one.now other.now (label_at label.now 0) label.now) from (length one.now) result }
{
    let base = usize::from(label[0]);
    let rows = LabelledRows {
        one,
        other,
        base,
        label,
    };
    // Counted by hand: a `for` with `step_by(8)` took 1.2 to 2 times as long over 136 zeros.
    let mut k = from;
    while k + 8 <= one.len() {
        let r = rows.unlike_of_eight(k, k + 8);
        if r < k + 8 {
            return r;
        }
        k += 8;
    }
    if one.len() < 8 {
        return rows.unlike_before(k, one.len());
    }
    rows.unlike_of_eight(k, one.len())
}
