// Writers of text: each puts its text into a buffer from a place on, leaves every other byte unchanged, and returns the place after the text. And parts of an input.
// The buffer and the place are two parameters: with a struct that holds the buffer each writer needs one clause more, that it still lends the same one, and longer bounds.
#![tactic(auto)]

ghost use Rattle.std.specs.Prelude.{◌≡◌, ℕ, List, [], ◌∷◌, ◌++◌, ◌+◌, ◌*◌, ◌/◌, ◌≤◌, ◌<◌, length, take};
ghost use Rattle.std.specs.Borrow.{MutBor};
ghost use Rattle.definitions.specs.Bytes.{byte, two_bytes};
ghost use Rattle.definitions.specs.Decimal.{digit, decimal};
ghost use Rattle.definitions.specs.Characters.{blank, newline};
ghost use Rattle.definitions.specs.Shelf.{codes_text};
ghost use Rattle.text.specs.Put.{Put};
ghost use Rattle.text.specs.Each.{each_text, Texts, PutsText};

// One byte.
pub fn put_byte(out: &mut [u8], at: usize, byte: u8) -> usize
    requires { at < length out.old }
    ensures { Put out.old at (byte ∷ []) out.new result }
{
    out[at] = byte;
    at + 1
}

// Bytes as they are.
#[tactic(auto, using(crate::proofs::Puts::copied))]
pub fn put(out: &mut [u8], at: usize, bytes: &[u8]) -> usize
    requires { at + length bytes.now ≤ length out.old }
    ensures { Put out.old at bytes.now out.new result }
{
    let end = at + bytes.len();
    out[at..end].copy_from_slice(bytes);
    end
}

// The last decimal digit of a number.
pub fn put_digit(out: &mut [u8], at: usize, n: usize) -> usize
    requires { at < length out.old }
    ensures { Put out.old at (digit n ∷ []) out.new result }
{
    put_byte(out, at, b'0' + (n % 10) as u8)
}

// The last two.
pub fn put_two_digits(out: &mut [u8], at: usize, n: usize) -> usize
    requires { at + 2 ≤ length out.old }
    ensures { Put out.old at (digit (n / 10) ∷ digit n ∷ []) out.new result }
{
    let next = put_digit(out, at, n / 10);
    put_digit(out, next, n)
}

// A number below 1,000 in decimal digits; of a greater one its last three.
pub fn put_decimal(out: &mut [u8], at: usize, n: usize) -> usize
    requires { at + 3 ≤ length out.old }
    ensures put { Put out.old at (decimal n) out.new result }
    ensures upper_bound { result ≤ at + 3 }
{
    if n < 10 {
        return put_digit(out, at, n);
    }
    if n < 100 {
        return put_two_digits(out, at, n);
    }
    let next = put_digit(out, at, n / 100);
    put_two_digits(out, next, n)
}

// The texts of bytes, one after another. The function puts the text of one byte at a place that has room for the longest.
pub fn put_each<F: Fn(&mut [u8], usize, u8) -> usize>(
    out: &mut [u8],
    at: usize,
    bytes: &[u8],
    put_text: F,
) -> usize
    ghost texts: { Texts }
    requires callable { (buffer : MutBor (List ℕ)) (place byte : ℕ) → place + texts.most ≤ length buffer.now → F.pre put_text buffer place byte }
    requires puts { (buffer after : MutBor (List ℕ)) (place byte next : ℕ) → byte < 256 → F.post put_text buffer place byte next after → PutsText texts buffer.now place byte after.now next }
    requires room { at + texts.most * length bytes.now ≤ length out.old }
    ensures put { Put out.old at (each_text texts.text_of bytes.now) out.new result }
    ensures upper_bound { result ≤ at + texts.most * length bytes.now }
{
    let mut next = at;
    for byte in bytes {
        next = put_text(out, next, *byte);
    }
    next
}

// A code after a blank.
fn put_code(out: &mut [u8], at: usize, code: u8) -> usize
    requires { at + 4 ≤ length out.old }
    ensures put { Put out.old at (blank ∷ decimal code) out.new result }
    ensures upper_bound { result ≤ at + 4 }
{
    let next = put_byte(out, at, b' ');
    put_decimal(out, next, usize::from(code))
}

// The codes of a history.
pub fn put_codes(out: &mut [u8], at: usize, codes: &[u8]) -> usize
    requires { at + 4 * length codes.now ≤ length out.old }
    ensures put { Put out.old at (codes_text codes.now) out.new result }
    ensures upper_bound { result ≤ at + 4 * length codes.now }
{
    put_each(out, at, codes, put_code)
}

// A line of a word, which ends in a blank, and a number.
pub fn put_number_line(out: &mut [u8], at: usize, word: &[u8], n: usize) -> usize
    requires { at + length word.now + 4 ≤ length out.old }
    ensures put { Put out.old at (word.now ++ decimal n ++ (newline ∷ [])) out.new result }
    ensures upper_bound { result ≤ at + length word.now + 4 }
{
    let next = put(out, at, word);
    let end = put_decimal(out, next, n);
    put_byte(out, end, b'\n')
}

// ---- parts of an input
// The first n bytes, or all where there are fewer.
pub fn first(s: &[u8], n: usize) -> &[u8]
    ensures result_value { result.now ≡ take n s.now }
    ensures result_len_bound { (length result.now ≤ n) × (length result.now ≤ length s.now) }
{
    &s[..n.min(s.len())]
}

// A byte, 0 after the end.
fn byte_at(s: &[u8], i: usize) -> usize
    ensures { (result ≡ byte s.now i) × (result < 256) }
{
    s.get(i).map_or(0, |b| usize::from(*b))
}

// The number in the first two bytes, the high byte first.
pub fn two_bytes(s: &[u8]) -> usize
    ensures { result ≡ two_bytes s.now 0 }
{
    byte_at(s, 0) * 256 + byte_at(s, 1)
}
