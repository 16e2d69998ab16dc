// `way back`: the firings to take back so that named parts are at named places (document 02, T-04). A line names each part and its
// place in the words of a sheet; what it does not name may be anywhere. The set is the customer's call.
use format::{base_count, byte_at, place_count};
use forms::{has_form, nth_number};
use lexing::next;
use questions::way_back;
use script_lines::state::State;
use session::Record;
use std::fmt;
use std::fmt::{Display, Write};
use way_back::WayBack;
use why::Reason;
use wording::answer::put_listed;
use wording::part::{behind, front};
use wording::put::Text;
use wording::reason::put_reason;
use wording::refused::put_refused;

// Room for a place for each part that a line can name, and some more.
const ROOM: usize = 300;

// The byte of a part that may be anywhere.
const ANY: u8 = 255;

// ---- what is wanted

// A line behind its first n items.
fn past(line: &[u8], n: usize) -> &[u8] {
    let mut rest = line;
    for _ in 0..n {
        rest = behind(rest, next(rest, 0).to);
    }
    rest
}

// The place that a line names for each part, none where it may be anywhere; how many parts the layout is of, n or more. None where the line
// does not read so, or names a part twice.
fn read_layout(line: &[u8], wanted: &mut [Option<u8>; ROOM], n: usize) -> Option<usize> {
    let mut rest = line;
    let mut reach = n;
    for _ in 0..line.len() {
        if !has_form(rest, 0, b"part 255 at 255", 4) {
            return has_form(rest, 0, b"", 1).then_some(reach);
        }
        let part = (nth_number(rest, 0, 0, 4) % 256) as usize;
        let place = (nth_number(rest, 0, 1, 4) % 256) as u8;
        if wanted[part].is_some() {
            return None;
        }
        wanted[part] = Some(place);
        reach = reach.max(part + 1);
        rest = past(rest, 4);
    }
    Some(reach)
}

// ---- the answer

// What is wrong with a layout.
#[derive(Clone, Copy)]
enum Unfit {
    NoPart { part: usize, parts: u8 },
    NoPlace { part: usize, place: u8, places: u8 },
    NoWay,
    Parts { is: usize, to_be: u8 },
}

impl Display for Unfit {
    fn fmt<W: Write>(&self, f: &mut fmt::Formatter<W>) -> fmt::Result {
        match *self {
            Unfit::NoPart { part, parts } => {
                write!(f, "part {part} is named and the parts are {parts}")
            }
            Unfit::NoPlace {
                part,
                place,
                places,
            } => write!(
                f,
                "part {part} is wanted at {place} and the places are {places}"
            ),
            Unfit::NoWay => f.write_str("whatever is taken back some part is elsewhere"),
            Unfit::Parts { is, to_be } => {
                write!(f, "the layout has {is} parts and the sheet has {to_be}")
            }
        }
    }
}

// Why a layout is refused by 27.
fn what_is_unfit(sheet: &[u8], layout: &[u8]) -> Unfit {
    let parts = base_count(sheet);
    let n = layout.len();
    if usize::from(parts) < n {
        return Unfit::NoPart { part: n - 1, parts };
    }
    if n < usize::from(parts) {
        return Unfit::Parts {
            is: n,
            to_be: parts,
        };
    }
    let places = place_count(sheet);
    let part = layout
        .iter()
        .position(|&x| x != ANY && places <= x)
        .unwrap_or(n);
    Unfit::NoPlace {
        part,
        place: byte_at(layout, part),
        places,
    }
}

// Why the call was refused by a number.
fn put_no_way(out: &mut Text, sheet: &[u8], layout: &[u8], number: u8) {
    match number {
        10 => put_reason(out, Reason::Record),
        0..=26 => put_refused(out, sheet, number),
        27 => out.say(what_is_unfit(sheet, layout)),
        _ => out.say(Unfit::NoWay),
    }
}

// The serials in the order of the call; or `refused N` and why.
fn put_way(out: &mut Text, sheet: &[u8], layout: &[u8], w: &WayBack) {
    let refusal = w.answer.number();
    if refusal != 0 {
        out.put_refusal(refusal);
        out.put(b' ');
        put_no_way(out, sheet, layout, refusal);
    } else if w.count == 0 {
        out.put_text(b"take back nothing");
    } else {
        out.put_text(b"take back");
    }
    for (i, key) in w.keys.iter().enumerate() {
        put_listed(out, i < w.count, usize::from(key.0));
    }
}

// ---- the line

// `way back` and the named parts. The record and the tally stay as they are.
pub fn way_line(line: &[u8], state: &mut State<'_>, r: Record, buf: &[u8], answer: &mut Text) {
    let sheet = state.sheet_of(buf);
    let mut wanted = [None; ROOM];
    let parts = usize::from(base_count(sheet));
    let Some(n) = read_layout(past(line, 2), &mut wanted, parts) else {
        state.mistake(
            b"`way back` and `part P at X` for each part that is wanted somewhere, none of them twice, numbers to 255",
        );
        return;
    };
    let mut layout = [ANY; ROOM];
    for (byte, place) in layout.iter_mut().zip(wanted) {
        *byte = place.unwrap_or(ANY);
    }
    let layout = front(&layout, state.layout.unwrap_or(n));
    put_way(answer, sheet, layout, &way_back(r, sheet, layout));
    state.opened();
}
