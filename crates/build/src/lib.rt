// From a policy to its book: the situations that histories reach, alike ones joined, numbered by their earliest history, and written as bytes. Row 1 (the
// buffer) and row 11 (over 127 situations) are decided here, the others in policycheck; stated in definitions/specs/Build.antt and Refusal.antt.
#![tactic(auto)]

ghost use Rattle.std.specs.Prelude.{◌≡◌, ◌+◌, ◌*◌, ◌<◌, ◌≤◌, length};
ghost use Rattle.automaton.specs.Join.{minimal};
ghost use Rattle.automaton.specs.Ordered.{Ordered};
ghost use Rattle.automaton.specs.Table.{tabled};
ghost use Rattle.definitions.specs.Answer.{written};
ghost use Rattle.definitions.specs.Policy.{fields, frame};
ghost use Rattle.definitions.specs.Book.{book_bytes};
ghost use Rattle.definitions.specs.Build.{build_answer, build_buffer};
ghost use Rattle.definitions.specs.Refusal.{file_refusal};
ghost use Rattle.definitions.specs.Rows.{rows_in, TableIn};
ghost use Rattle.build.specs.BuiltAnswer.{built_answer};
ghost use Rattle.build.specs.Room.{RoomFor};
ghost use Rattle.policy.specs.Shape.{shape_of};

use policy::header;
use policy::shape::Shape;
use refusal::Refusal;
use situation::Situation;

// A policy that no row before row 11 refuses, with the numbers that its bytes decide and every step needs.
#[derive(Clone, Copy)]
struct CheckedPolicy<'a> {
    bytes: &'a [u8],
    shape: Shape,
    ghost passed: { file_refusal bytes.now ≡ 0 },
    ghost shape_is: { shape ≡ shape_of bytes.now },
}

// The six bytes of the frame: the number of events, that of fields, the value counts of the fields, and 0 for each absent one.
fn frame_of(policy: &[u8]) -> [u8; 6]
    requires { (9 ≤ length policy.now) × (9 + fields policy.now ≤ length policy.now) }
    ensures { result ≡ frame policy.now }
{
    let present = header::fields(policy).min(4);
    let mut frame = [0u8; 6];
    frame[..2].copy_from_slice(&policy[5..7]);
    frame[2..2 + present].copy_from_slice(&policy[9..9 + present]);
    frame
}

// The book of a policy whose situations have the `n` rows of `raw`. Returns its length. The bytes after it are unchanged.
fn write_book(book: &mut [u8], policy: &[u8], raw: &[u8], n: usize, w: usize) -> usize
    requires table_in { TableIn raw.now n w × (n ≤ 127) × Ordered (tabled w (rows_in raw.now n w)) n × (12 + n * w ≤ length book.old) }
    requires in_bounds { (9 ≤ length policy.now) × (9 + fields policy.now ≤ length policy.now) }
    ensures value { result ≡ length (book_bytes (frame policy.now) (minimal w (rows_in raw.now n w))) }
    ensures book_after { book.new ≡ written (book_bytes (frame policy.now) (minimal w (rows_in raw.now n w))) book.old }
{
    join::write_joined(book, &frame_of(policy), raw, n, w)
}

// The book of a policy. Row 11, over 127 situations, leaves the buffer unchanged, and so are the bytes after a book. `images` and `raw` are room to work in;
// nothing is said of what they hold afterwards.
fn build_in(
    policy: CheckedPolicy,
    book: &mut [u8],
    images: &mut [u64],
    raw: &mut [u8],
) -> Result<usize, Refusal>
    requires holds_any_book { 17284 ≤ length book.old }
    requires room { RoomFor policy.bytes.now policy.shape (length images.old) (length raw.old) }
    ensures answer { built_answer result ≡ build_answer policy.entry.bytes.now book.old }
    ensures book { book.new ≡ build_buffer policy.entry.bytes.now book.old }
{
    let shape = policy.shape;
    let w = shape.width;
    let mut found = [0u64; 128];
    images::fill_images(policy.bytes, shape, images);
    let start = Situation::start(shape.start);
    let Some(n) = explore::explore(images, shape.valuations, w, start, &mut found, raw) else {
        return Err(Refusal::Situations);
    };
    Ok(write_book(book, policy.bytes, raw, n, w))
}

// The same, with arrays for room: so many words for the images, and so many bytes for the rows. Each size stays apart from the function that chooses it: that one
// would have all of them on its stack, and to touch them page by page takes as long as to clear some thousand bytes.
#[inline(never)]
fn build_with<const IMAGES: usize, const RAW: usize>(
    policy: CheckedPolicy,
    book: &mut [u8],
) -> Result<usize, Refusal>
    requires holds_any_book { 17284 ≤ length book.old }
    requires room { RoomFor policy.bytes.now policy.shape IMAGES RAW }
    requires sizes { (IMAGES ≤ 8704) × (RAW ≤ 17272) }
    ensures answer { built_answer result ≡ build_answer policy.entry.bytes.now book.old }
    ensures book { book.new ≡ build_buffer policy.entry.bytes.now book.old }
{
    let mut images = [0u64; IMAGES];
    let mut raw = [0u8; RAW];
    build_in(policy, book, &mut images, &mut raw)
}

// With the room that the policy's numbers ask for, since smaller arrays are cleared faster: at most 3 valuations have at most 7 situations, and at most 6 have 63,
// for each set of them but the empty one is at most one situation (without rules there is one of each).
fn build_sized(policy: CheckedPolicy, book: &mut [u8]) -> Result<usize, Refusal>
    requires holds_any_book { 17284 ≤ length book.old }
    ensures answer { built_answer result ≡ build_answer policy.entry.bytes.now book.old }
    ensures book { book.new ≡ build_buffer policy.entry.bytes.now book.old }
{
    let shape = policy.shape;
    if shape.width <= 32 {
        if shape.valuations <= 3 {
            return build_with::<96, 224>(policy, book);
        }
        if shape.valuations * shape.width <= 512 {
            return build_with::<512, 4064>(policy, book);
        }
        return build_with::<2048, 4064>(policy, book);
    }
    if shape.valuations <= 3 {
        return build_with::<408, 952>(policy, book);
    }
    if shape.valuations <= 6 {
        return build_with::<816, 8568>(policy, book);
    }
    build_with::<8704, 17272>(policy, book)
}

// The book of a policy, in the first bytes of the buffer; the bytes after it are unchanged. A refusal leaves the whole buffer as it was.
pub fn build(policy: &[u8], book: &mut [u8]) -> Result<usize, Refusal>
    ensures answer { built_answer result ≡ build_answer policy.now book.old }
    ensures book { book.new ≡ build_buffer policy.now book.old }
{
    if book.len() < 17284 {
        return Err(Refusal::ShortBuffer);
    }
    policycheck::check(policy)?;
    let checked = CheckedPolicy {
        bytes: policy,
        shape: Shape::of(policy),
    };
    build_sized(checked, book)
}
