// The numbers at the front of a book's bytes, which need not be those of a book that passes the checks.
ghost use Rattle.std.specs.Prelude.{◌≡◌, ◌≤◌, length};
ghost use Rattle.definitions.specs.Book as B;

// E, the number of events.
pub fn events(bytes: &[u8]) -> usize
    requires { 12 ≤ length bytes.now }
    ensures { result ≡ B.events bytes.now }
{
    usize::from(bytes[5])
}

// n, the number of states.
pub fn states(bytes: &[u8]) -> usize
    requires { 12 ≤ length bytes.now }
    ensures { result ≡ B.states bytes.now }
{
    usize::from(bytes[11])
}

// Q, the product of the value counts.
pub fn requests(bytes: &[u8]) -> usize
    requires { (12 ≤ length bytes.now) × (B.fields bytes.now ≤ 4) }
    ensures { result ≡ B.requests bytes.now }
{
    let fields = usize::from(bytes[6]);
    let mut product = 1;
    for f in 0..fields {
        product *= usize::from(bytes[7 + f]);
    }
    product
}

// w, the number of codes, from Q.
pub fn width(bytes: &[u8], requests: usize) -> usize
    requires { (12 ≤ length bytes.now) × (requests ≡ B.requests bytes.now) × (requests ≤ 64) }
    ensures { result ≡ B.width bytes.now }
{
    events(bytes) + 2 * requests
}
