// The bytes of a net (01, the sheet), written into a lent buffer: two-byte numbers and pairs.
// Every contract says all of the buffer (`Wrote`) and answers where the bytes end.
#![tactic(auto)]

ghost use Rattle.std.specs.Prelude.{◌++◌, ◌+◌, ◌≤◌, length};
ghost use Rattle.text.specs.Writes.{Wrote};
ghost use Rattle.encode.specs.Encoding.{word};

use text::put_word;

// A two-byte number, low byte first. The caller has checked that the buffer is long enough, as for the function below.
pub fn put_number(buf: &mut [u8], at: usize, n: u16) -> usize
    requires { at + 2 ≤ length buf.old }
    ensures { Wrote (word n) at buf.old result buf.new }
{
    put_word(buf, at, &n.to_le_bytes())
}

// A pair: offset and length. Its four bytes are there, as the caller has checked.
pub fn put_pair(buf: &mut [u8], at: usize, offset: u16, size: u16) -> usize
    requires { at + 4 ≤ length buf.old }
    ensures { Wrote (word offset ++ word size) at buf.old result buf.new }
{
    let a = put_number(buf, at, offset);
    put_number(buf, a, size)
}
