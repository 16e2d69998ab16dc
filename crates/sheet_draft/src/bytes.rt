// The bytes of acts into a lent buffer: header, pairs, stretches. Every contract says all of the buffer (`Wrote`) and answers
// where the bytes end; each caller has checked that the buffer has room for just these bytes.
ghost use Rattle.std.specs.Prelude.{◌≡◌, true, ◌+◌, ◌*◌, ◌≤◌, length};
ghost use Rattle.text.specs.Joined.{joined};
ghost use Rattle.text.specs.Writes.{Wrote, Filled};
ghost use Rattle.encode.specs.Encoding.{pairs};
ghost use Rattle.sheet_draft.specs.Bytes.{bytes_at, tagged, counted, count_of, step_bytes, step_fits, stretch_fits, stretch_at, stretches_in, AllFit, Holds, sheet_in};

use crate::counts::{count_of, width_of};
use encode::put_pair;
use text::put_word;

// The first w of an act's three bytes. Most acts that are passed are of another tag, and give none.
fn put_some(buf: &mut [u8], at: usize, w: usize, x: u64) -> usize
    requires { (w ≤ 3) × (at + w ≤ length buf.old) }
    ensures { Wrote (bytes_at w x) at buf.old result buf.new }
{
    if w == 0 {
        return at;
    }
    let three = [
        (x / 65536 % 256) as u8,
        (x / 256 % 256) as u8,
        (x % 256) as u8,
    ];
    put_word(buf, at, &three[..w])
}

// The bytes of the acts of one tag.
fn put_tagged(buf: &mut [u8], at: usize, acts: &[u64], tag: u64, w: usize) -> usize
    requires { (w ≤ 3) × (at + length (tagged w tag acts.now) ≤ length buf.old) }
    ensures { Wrote (tagged w tag acts.now) at buf.old result buf.new }
{
    let mut pos = at;
    for x in acts {
        pos = put_some(buf, pos, width_of(*x, tag, w), *x);
    }
    pos
}

// The bytes of the acts of one tag, after their count.
fn put_counted(buf: &mut [u8], at: usize, acts: &[u64], tag: u64, w: usize) -> usize
    requires { (w ≤ 3) × (count_of tag acts.now ≤ 255) × (at + length (counted w tag acts.now) ≤ length buf.old) }
    ensures { Wrote (counted w tag acts.now) at buf.old result buf.new }
{
    let n = count_of(acts, tag);
    let a = put_word(buf, at, &[n as u8]);
    put_tagged(buf, a, acts, tag, w)
}

// The bytes of a step.
fn put_step(buf: &mut [u8], at: usize, acts: &[u64], k: usize) -> usize
    requires { (k ≤ 255) × (step_fits acts.now k ≡ true) × (at + length (step_bytes acts.now k) ≤ length buf.old) }
    ensures { Wrote (step_bytes acts.now k) at buf.old result buf.new }
{
    let t = 3 * k as u64;
    let a = put_counted(buf, at, acts, t + 3, 3);
    let b = put_counted(buf, a, acts, t + 4, 2);
    put_counted(buf, b, acts, t + 5, 2)
}

// The bytes that pair j names: the start places, the start couplings, a step.
fn put_stretch(buf: &mut [u8], at: usize, acts: &[u64], j: usize) -> usize
    requires { (j ≤ 257) × (stretch_fits acts.now j ≡ true) × (at + length (stretch_at acts.now j) ≤ length buf.old) }
    ensures { Wrote (stretch_at acts.now j) at buf.old result buf.new }
{
    match j {
        0 => put_tagged(buf, at, acts, 0, 1),
        1 => put_tagged(buf, at, acts, 1, 2),
        _ => put_step(buf, at, acts, j - 2),
    }
}

// All that the pairs name, one behind the other.
fn put_stretches(buf: &mut [u8], at: usize, acts: &[u64], n: usize) -> usize
    requires { (n ≤ 257) × AllFit n acts.now × (at + length (joined (stretches_in n acts.now)) ≤ length buf.old) }
    ensures { Wrote (joined (stretches_in n acts.now)) at buf.old result buf.new }
{
    let mut pos = at;
    for j in 0..n {
        pos = put_stretch(buf, pos, acts, j);
    }
    pos
}

// How many bytes the acts of a tag have. There are at most as many acts as a sheet has bytes, as for the functions below.
fn tagged_size(acts: &[u64], tag: u64, w: usize) -> usize
    requires { (w ≤ 3) × (length acts.now ≤ 65535) }
    ensures { (result ≡ length (tagged w tag acts.now)) × (result ≤ 196605) }
{
    w * count_of(acts, tag)
}

// How many bytes a step has.
fn step_size(acts: &[u64], k: usize) -> usize
    requires { (k ≤ 255) × (length acts.now ≤ 65535) }
    ensures { result ≡ length (step_bytes acts.now k) }
{
    let t = 3 * k as u64;
    let a = tagged_size(acts, t + 3, 3);
    let b = tagged_size(acts, t + 4, 2);
    let c = tagged_size(acts, t + 5, 2);
    a + b + c + 3
}

// How many bytes pair j names.
fn stretch_size(acts: &[u64], j: usize) -> usize
    requires { (j ≤ 257) × (length acts.now ≤ 65535) }
    ensures { result ≡ length (stretch_at acts.now j) }
{
    match j {
        0 => tagged_size(acts, 0, 1),
        1 => tagged_size(acts, 1, 2),
        _ => step_size(acts, j - 2),
    }
}

// The pairs: each stretch begins where the one before it ends.
fn put_pairs(buf: &mut [u8], at: usize, acts: &[u64], n: usize, from: usize) -> usize
    requires { (n ≤ 257) × (length acts.now ≤ 65535) × (from + length (joined (stretches_in n acts.now)) ≤ 65535) × (at + 4 * n ≤ length buf.old) }
    ensures { Wrote (pairs from (stretches_in n acts.now)) at buf.old result buf.new }
{
    let mut pos = at;
    let mut offset = from;
    for j in 0..n {
        let size = stretch_size(acts, j);
        pos = put_pair(buf, pos, offset as u16, size as u16);
        offset += size;
    }
    pos
}

// The bytes of the sheet. The caller has held the acts to what the format holds.
pub fn put_sheet(buf: &mut [u8], acts: &[u64], places: u8, parts: u8, steps: u8) -> usize
    requires { Holds places parts steps acts.now × (65535 ≤ length buf.old) }
    ensures { Filled (sheet_in places steps acts.now) buf.old result buf.new }
{
    let a = put_word(buf, 0, &[1, places, parts, steps]);
    let n = steps as usize + 2;
    let b = put_pairs(buf, a, acts, n, 4 * n + 4);
    put_stretches(buf, b, acts, n)
}
