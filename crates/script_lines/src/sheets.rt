// The sheet that a stretch of a script says: in words (crate sheet_draft), or its bytes in hexadecimal.
ghost use Rattle.std.specs.Prelude.{◌≤◌, length};

use crate::form::{Form, form_of};
use crate::hex::put_hex;
use lexing::{Class, end_of};
use sheet_draft::{Made, read_sheet};
use sheet_text::Line;
use wording::put::Text;

// What was expected in place of a line of a sheet.
#[derive(Clone, Copy)]
pub enum Slip {
    SheetLine,
    PlacesOnce,
    PartInTurn,
    CoupledFirst,
    StepInTurn,
    BehindStep,
    HexLine,
    Smaller,
    NoSheet,
}

impl Slip {
    pub fn words(self) -> &'static str {
        match self {
            Slip::SheetLine =>
                "`places N`, `part P at PLACE`, `coupled P-Q`, `step K`, `move P from PLACE to PLACE`, `before P-Q` or `after P-Q`, numbers to 255",
            Slip::PlacesOnce => "`places` once, before the first `step`",
            Slip::PartInTurn => "the parts in their turn, from 0, before the first `step`",
            Slip::CoupledFirst =>
                "`coupled` before the first `step`: `after` says what a step couples",
            Slip::StepInTurn => "the steps in their turn, from 0",
            Slip::BehindStep => "a `step` before this line",
            Slip::HexLine => "`hex` and two digits 0 to 9, a to f, for each byte",
            Slip::Smaller =>
                "a sheet that the format can hold: up to 255 parts, steps, and lines of a kind in a step, 65535 bytes",
            Slip::NoSheet => "`sheet` and its lines",
        }
    }
}

// What was expected, and at which line, counted from 1 in the stretch: 0 where it is about the whole.
#[derive(Clone, Copy)]
pub struct Mistake {
    pub slip: Slip,
    pub line: usize,
}

// Where the line ends that a position of a text is in.
pub fn line_end(text: &[u8], at: usize) -> usize
    requires { at ≤ length text.now }
    ensures { (at ≤ result) × (result ≤ length text.now) }
{
    end_of(text, at, Class::InLine)
}

// What a line of a sheet lacks where it stands.
fn slip_of(l: Line) -> Slip {
    match l {
        Line::Blank | Line::Wrong => Slip::SheetLine,
        Line::Places(_) => Slip::PlacesOnce,
        Line::Part(_, _) => Slip::PartInTurn,
        Line::Coupled(_, _) => Slip::CoupledFirst,
        Line::Step(_) => Slip::StepInTurn,
        Line::Move(_, _, _) | Line::Before(_, _) | Line::After(_, _) => Slip::BehindStep,
    }
}

// A sheet in words. The callers, here and below, lend room for any sheet that the format can hold.
fn worded(text: &[u8], buf: &mut [u8]) -> Result<usize, Mistake>
    requires { 65536 ≤ length buf.old }
{
    match read_sheet(text, buf) {
        Made::Sheet(n) => Ok(n),
        Made::Mistake(line, l) => Err(Mistake {
            slip: slip_of(l),
            line,
        }),
        Made::TooLarge => Err(Mistake {
            slip: Slip::Smaller,
            line: 0,
        }),
    }
}

// Whether the first line that is not blank begins with `hex`.
fn is_hex(text: &[u8]) -> bool {
    for line in text.split(|c| *c == b'\n') {
        let form = form_of(line);
        if form != Form::Blank {
            return form == Form::Hex;
        }
    }
    false
}

// A line of a sheet's bytes: `hex` and bytes, or blank.
fn put_line(line: &[u8], out: &mut Text) -> Option<()> {
    match form_of(line) {
        Form::Blank => Some(()),
        Form::Hex => put_hex(line, out),
        _ => None,
    }
}

// A sheet's bytes, line by line. A buffer that is full may have lost bytes.
fn spelled(text: &[u8], buf: &mut [u8]) -> Result<usize, Mistake> {
    let mut out = Text::new(buf);
    for (k, line) in text.split(|c| *c == b'\n').enumerate() {
        if put_line(line, &mut out).is_none() {
            return Err(Mistake {
                slip: Slip::HexLine,
                line: k.saturating_add(1),
            });
        }
    }
    let n = out.len();
    if 65536 <= n {
        return Err(Mistake {
            slip: Slip::Smaller,
            line: 0,
        });
    }
    Ok(n)
}

// The sheet that a stretch says, so many bytes of the buffer.
pub fn sheet_in(text: &[u8], buf: &mut [u8]) -> Result<usize, Mistake>
    requires { 65536 ≤ length buf.old }
{
    if is_hex(text) {
        spelled(text, buf)
    } else {
        worded(text, buf)
    }
}
