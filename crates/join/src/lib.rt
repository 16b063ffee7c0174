// A table's alike states joined: one row for each class of them, numbered by its earliest history, written as a book.
#![tactic(auto)]

ghost use Rattle.std.specs.Prelude.{◌≡◌, cond, suc, ◌+◌, ◌*◌, ◌<◌, ◌≤◌, eqb, map, length, take, set};
ghost use Rattle.automaton.specs.Join.{minimal};
ghost use Rattle.automaton.specs.Ordered.{Ordered};
ghost use Rattle.automaton.specs.Table.{tabled};
ghost use Rattle.definitions.specs.Answer.{written};
ghost use Rattle.definitions.specs.Bytes.{byte};
ghost use Rattle.definitions.specs.Book.{book_bytes};
ghost use Rattle.definitions.specs.Rows.{rows_in, laid, TableIn, EntriesBelow};
ghost use Rattle.refine.specs.Rounds.{one_class};
ghost use Rattle.join.specs.Numbers.{NamesFirst, first_states, class_numbers, StatesBelow, numbered_rows, book_header};

use refine::table::Table;

// State `s` gets its number in place of its class: the next one, if it is the first of its class, and else that of its class. A first state goes to the end
// of the `count` in `order`. Returns how many there are then.
// The count stands beside the array, since nothing here is on a heap.
fn number_state(numbers: &mut [u8], order: &mut [u8], count: usize, s: usize) -> usize
    requires { (s < length numbers.old) × (s < 128) × (byte numbers.old s ≤ s) × (count < length order.old) × (count < 128) }
    ensures value { result ≡ cond (eqb (byte numbers.old s) s) (count + 1) count }
    ensures numbers_after { numbers.new ≡ set numbers.old s
        (cond (eqb (byte numbers.old s) s) (count + 1) (byte numbers.old (byte numbers.old s))) }
    ensures order_after { order.new ≡ cond (eqb (byte numbers.old s) s) (set order.old count s) order.old }
{
    let class = usize::from(numbers[s]);
    if class == s {
        order[count] = s as u8;
        numbers[s] = (count + 1) as u8;
        return count + 1;
    }
    numbers[s] = numbers[class];
    count
}

// The number of each state in place of its class. The first states of the classes go into `order`; returns how many there are. No search is needed: the
// states are in the order of their earliest histories, so the first state of a class has the earliest history of the class.
fn number(numbers: &mut [u8], order: &mut [u8]) -> usize
    requires { NamesFirst numbers.old × (length numbers.old ≤ 128) × (length order.old ≡ length numbers.old) }
    ensures value { (result ≡ length (first_states numbers.old)) × (take result order.new ≡ first_states numbers.old) }
    ensures numbers_after { numbers.new ≡ class_numbers numbers.old }
{
    let mut count = 0;
    for s in 1..numbers.len() {
        count = number_state(numbers, order, count, s);
    }
    count
}

// The entries of a state's row, with the numbers of the successors. What lies behind them in the buffer is unchanged.
fn write_row(row: &mut [u8], entries: &[u8], numbers: &[u8])
    requires { (length entries.now ≤ length row.old) × EntriesBelow entries.now (length entries.now) (length numbers.now) }
    ensures { row.new ≡ written (map (byte numbers.now) entries.now) row.old }
{
    for (c, x) in entries.iter().enumerate() {
        row[c] = numbers[usize::from(*x)];
    }
}

// The rows of the states in `order`, one after another from byte 12 on. The bytes before and after them are unchanged.
fn write_rows(book: &mut [u8], table: Table, order: &[u8], numbers: &[u8])
    requires states_below { StatesBelow order.now (suc table.states) × (length numbers.now ≡ suc table.states) }
    requires room { 12 + length order.now * table.width ≤ length book.old }
    ensures { book.new ≡ laid 12 (numbered_rows table.entry.rows.now table.entry.width numbers.now order.now) book.old }
{
    for (i, s) in order.iter().enumerate() {
        let at = 12 + i * table.width;
        let entries = table.row(usize::from(*s));
        write_row(&mut book[at..], entries, numbers);
    }
}

// Mark, version, the frame and the number of states. The bytes after them are unchanged.
fn write_header(book: &mut [u8], frame: &[u8], n: usize)
    requires { (12 ≤ length book.old) × (length frame.now ≡ 6) × (n ≤ 127) }
    ensures { book.new ≡ written (book_header frame.now n) book.old }
{
    book[..5].copy_from_slice(b"BOK\x00\x01");
    book[5..11].copy_from_slice(frame);
    book[11] = n as u8;
}

// The same as `write_joined` for a table. `numbers` and `order` are room to work in, with a place for each state after the first; `numbers` has the states in
// one class, as before the first round.
fn write_joined_in(
    book: &mut [u8],
    frame: &[u8],
    table: Table,
    numbers: &mut [u8],
    order: &mut [u8],
) -> usize
    requires ordered { Ordered (tabled table.width (rows_in table.rows.now table.states table.width)) table.states }
    requires one_class { numbers.old ≡ one_class (length numbers.old) }
    requires lengths { (length numbers.old ≡ suc table.states) × (length numbers.old ≤ 128) × (length order.old ≡ length numbers.old) }
    requires room { (12 + table.states * table.width ≤ length book.old) × (length frame.now ≡ 6) }
    ensures value { result
        ≡ length (book_bytes frame.now (minimal table.entry.width (rows_in table.entry.rows.now table.entry.states table.entry.width))) }
    ensures book_after { book.new
        ≡ written (book_bytes frame.now (minimal table.entry.width (rows_in table.entry.rows.now table.entry.states table.entry.width))) book.old }
{
    refine::refine_all(table, numbers, order);
    let k = number(numbers, order);
    write_header(book, frame, k);
    write_rows(book, table, &order[..k], numbers);
    12 + k * table.width
}

// The book with a frame whose rows are the smallest table with the histories of the `n` rows of `raw`, which are in order. Returns its length. The bytes
// after it are unchanged.
pub fn write_joined(book: &mut [u8], frame: &[u8], raw: &[u8], n: usize, w: usize) -> usize
    requires table_in { TableIn raw.now n w × (n ≤ 127) × Ordered (tabled w (rows_in raw.now n w)) n }
    requires w_in_bounds { (12 + n * w ≤ length book.old) × (length frame.now ≡ 6) }
    ensures value { result ≡ length (book_bytes frame.now (minimal w (rows_in raw.now n w))) }
    ensures book_after { book.new ≡ written (book_bytes frame.now (minimal w (rows_in raw.now n w))) book.old }
{
    let table = Table {
        rows: raw,
        width: w,
        states: n,
    };
    let mut numbers = [1u8; 128];
    numbers[0] = 0;
    let mut order = [0u8; 128];
    let size = n + 1;
    write_joined_in(book, frame, table, &mut numbers[..size], &mut order[..size])
}
