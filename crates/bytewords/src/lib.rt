// Bytes read eight at a time.
#![tactic(auto)]

ghost use Rattle.std.specs.Prelude.{◌≡◌, ◌+◌, ◌≤◌, length};
ghost use Rattle.bytewords.specs.ByteWords.{word_at, WordBytes};

// Eight bytes from place k on as one number, the first lowest. The compiler makes one load of them.
pub fn word(bytes: &[u8], k: usize) -> usize
    requires { k + 8 ≤ length bytes.now }
    ensures { (result ≡ word_at bytes.now k) × WordBytes bytes.now k }
{
    usize::from_le_bytes([
        bytes[k],
        bytes[k + 1],
        bytes[k + 2],
        bytes[k + 3],
        bytes[k + 4],
        bytes[k + 5],
        bytes[k + 6],
        bytes[k + 7],
    ])
}
