// Bytes in hexadecimal, two digits each, parted by blanks, as far as a line or its comment goes.
ghost use Rattle.std.specs.Prelude.{◌<◌, IfSome};

use lexing::next;
use wording::part::behind;
use wording::put::Text;

// The value of a digit.
fn digit_of(c: u8) -> Option<u8>
    ensures { IfSome result (λ d. d < 16) }
{
    match c {
        b'0'..=b'9' => Some(c - b'0'),
        b'a'..=b'f' => Some(c - b'a' + 10),
        _ => None,
    }
}

// Two digits as a byte.
fn byte_of(word: &[u8]) -> Option<u8> {
    match word {
        [a, b] => Some(16 * digit_of(*a)? + digit_of(*b)?),
        _ => None,
    }
}

// The bytes of a line that begins with a word, `hex`; none where not all behind the word is bytes.
pub fn put_hex(line: &[u8], out: &mut Text) -> Option<()> {
    let rest = behind(line, next(line, 0).to);
    let bytes = rest.split(|c| *c == b'#').next().unwrap_or(rest);
    for word in bytes.split(|c| *c <= 32) {
        if !word.is_empty() {
            out.put(byte_of(word)?);
        }
    }
    Some(())
}
