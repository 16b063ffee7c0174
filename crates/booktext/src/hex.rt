// A line of bytes in hexadecimal.
ghost use Rattle.std.specs.Prelude.{◌≡◌, ◌+◌, ◌*◌, ◌≤◌, ◌<◌, length};
ghost use Rattle.text.specs.Put.{Put};
ghost use Rattle.booktext.specs.Hex.{hex_digit, byte_text, hex_line};

use text::{put_byte, put_each};

fn hex_digit(n: usize) -> u8
    requires { n < 16 }
    ensures { result ≡ hex_digit n }
{
    if n < 10 {
        b'0' + n as u8
    } else {
        b'A' + (n - 10) as u8
    }
}

// The two digits of a byte.
fn put_hex_byte(out: &mut [u8], at: usize, byte: u8) -> usize
    requires { at + 2 ≤ length out.old }
    ensures { Put out.old at (byte_text byte) out.new result }
{
    let n = usize::from(byte);
    let next = put_byte(out, at, hex_digit(n / 16));
    put_byte(out, next, hex_digit(n % 16))
}

// The line: the digits of each byte.
pub fn put_hex_line(out: &mut [u8], bytes: &[u8]) -> usize
    requires { 2 * length bytes.now + 1 ≤ length out.old }
    ensures put { Put out.old 0 (hex_line bytes.now) out.new result }
    ensures upper_bound { result ≤ 2 * length bytes.now + 1 }
{
    let end = put_each(out, 0, bytes, put_hex_byte);
    put_byte(out, end, b'\n')
}
