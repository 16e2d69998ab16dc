// The acts of a text's lines, each as one number, into a lent array.
ghost use Rattle.std.specs.Prelude.{◌≡◌, ◌≤◌, false, leb, length, IsNone, IfSome};
ghost use Rattle.sheet_draft.specs.Notes.{no_act, an_act, note_of, notes_of, most_bytes, Collected};

use crate::{Note, Noted};
use lexing::{Class, end_of};
use sheet_text::{Line, line_at};

// A line that is no act.
fn no_act(size: usize, places: u32, steps: usize) -> Note
    ensures { result ≡ no_act size places steps }
{
    Note {
        act: 0,
        acts: 0,
        size,
        places,
        steps,
    }
}

// A line that is an act. Its tag is small: below three times the steps, as note_of below sees to.
fn an_act(tag: usize, p: u32, q: u32, r: u32, size: usize, places: u32, steps: usize) -> Note
    requires { tag ≤ 262143 }
    ensures { result ≡ an_act tag p q r size places steps }
{
    Note {
        act: tag as u64 * 16777216 + u64::from(p) * 65536 + u64::from(q) * 256 + u64::from(r),
        acts: 1,
        size,
        places,
        steps,
    }
}

// A line behind so many places and steps. The caller has fewer steps than the sheet has bytes.
fn note_of(l: Line, places: u32, steps: usize) -> Note
    requires { steps ≤ 65535 }
    ensures { result ≡ note_of l places steps }
{
    match l {
        Line::Blank => no_act(0, places, steps),
        Line::Places(n) => no_act(0, n, steps),
        Line::Part(p, x) => an_act(0, x, 0, 0, 1, places, steps),
        Line::Coupled(p, q) => an_act(1, p, q, 0, 2, places, steps),
        Line::Step(_) => no_act(7, places, steps + 1),
        Line::Move(p, i, o) => an_act(3 * steps, p, i, o, 3, places, steps),
        Line::Before(p, q) => an_act(3 * steps + 1, p, q, 0, 2, places, steps),
        Line::After(p, q) => an_act(3 * steps + 2, p, q, 0, 2, places, steps),
        Line::Wrong => no_act(0, places, steps),
    }
}

// The acts of a text, one behind the other, up to the line that makes the sheet too large. The array has room for an act
// for each byte of a sheet and one more.
pub fn collect(text: &[u8], acts: &mut [u64]) -> Option<Noted>
    requires { 65536 ≤ length acts.old }
    ensures too_large { IsNone result → false ≡ leb (notes_of text.now).size most_bytes }
    ensures collected { IfSome result (Collected text.now acts.new) }
{
    let mut at = 0;
    let mut n = 0;
    let mut places = 0;
    let mut steps = 0;
    let mut size = 12;
    while at <= text.len() {
        let to = end_of(text, at, Class::InLine);
        let l = line_at(text, at, to);
        let x = note_of(l, places, steps);
        size += x.size;
        if 65535 < size {
            return None;
        }
        acts[n] = x.act;
        n += x.acts;
        places = x.places;
        steps = x.steps;
        at = to + 1;
    }
    Some(Noted {
        acts: n,
        places,
        steps,
        size,
    })
}
