// The exam program's input from a script, and a script from such an input: two bytes with the sheet's length, the sheet, and
// the commands, three bytes each (document 01, the exam program). Of a script, its first sheet and that sheet's first session.
ghost use Rattle.std.specs.Prelude.{◌≤◌, length};

use format::word_at;
use script_lines::command::put_orders;
use script_lines::form::{Form, form_of};
use script_lines::sheets::{Mistake, Slip, line_end, sheet_in};
use std::fmt::Write;
use wording::part::{between, front};
use wording::put::Text;

// ---- from a script

// A stretch of a text, from a position to another.
#[derive(Clone, Copy)]
struct Stretch {
    from: usize,
    to: usize,
}

impl Stretch {
    fn of(self, text: &[u8]) -> &[u8] {
        between(text, self.from, self.to)
    }
}

// Where a script's first sheet stands: its line, the lines behind it, and those of its first session, where there is one.
#[derive(Clone, Copy)]
struct Place {
    line: usize,
    sheet: Stretch,
    session: Option<Stretch>,
}

// With a line more, which ends at a position.
fn stretched(p: Place, to: usize) -> Place {
    match p.session {
        Some(s) => Place {
            session: Some(Stretch { from: s.from, to }),
            ..p
        },
        None => Place {
            sheet: Stretch {
                from: p.sheet.from,
                to,
            },
            ..p
        },
    }
}

// With a session, the line of which lies between two positions.
fn with_session(p: Place, at: usize, to: usize) -> Place {
    Place {
        line: p.line,
        sheet: Stretch {
            from: p.sheet.from,
            to: at,
        },
        session: Some(Stretch { from: to, to }),
    }
}

// A second sheet ends the first, and a second session too.
fn place_of(text: &[u8]) -> Option<Place> {
    let mut found: Option<Place> = None;
    let mut at = 0;
    let mut line: usize = 1;
    while at < text.len() {
        let to = line_end(text, at);
        let form = form_of(between(text, at, to));
        match found {
            None if form == Form::Sheet => {
                let from = to.saturating_add(1);
                found = Some(Place {
                    line,
                    sheet: Stretch { from, to },
                    session: None,
                });
            }
            None => {}
            Some(p) if form == Form::Sheet => return Some(p),
            Some(p) if form == Form::Session => {
                if p.session.is_some() {
                    return Some(p);
                }
                found = Some(with_session(p, at, to));
            }
            Some(p) => found = Some(stretched(p, to)),
        }
        if text.len() <= to {
            return found;
        }
        at = to + 1;
        line = line.saturating_add(1);
    }
    found
}

// A sheet with its length in front.
fn put_sheet(out: &mut Text, sheet: &[u8]) {
    let n = sheet.len();
    out.put((n % 256) as u8);
    out.put((n / 256 % 256) as u8);
    out.put_text(sheet);
}

// The input of a script; or the line of the sheet's first mistake.
pub fn put_input(text: &[u8], sheet: &mut [u8], out: &mut Text) -> Result<(), Mistake>
    requires { 65536 ≤ length sheet.old }
{
    let Some(p) = place_of(text) else {
        return Err(Mistake {
            slip: Slip::NoSheet,
            line: 0,
        });
    };
    match sheet_in(p.sheet.of(text), sheet) {
        Ok(n) => put_sheet(out, front(sheet, n)),
        Err(m) => {
            let line = p.line.saturating_add(m.line);
            return Err(Mistake { slip: m.slip, line });
        }
    }
    if let Some(session) = p.session {
        put_orders(session.of(text), out);
    }
    Ok(())
}

// ---- from an input

// The bytes of a sheet in an input.
pub fn input_sheet(input: &[u8]) -> &[u8] {
    between(input, 2, 2 + word_at(input, 0))
}

fn put_bytes(out: &mut Text, bytes: &[u8]) {
    out.put_text(b"hex");
    for x in bytes {
        let _ = write!(out, " {x:02x}");
    }
}

// A command as a line, without its newline.
pub fn put_command(out: &mut Text, bytes: &[u8]) {
    match bytes {
        [1, low, high] => out.put_count("fire", u16::from_le_bytes([*low, *high])),
        [2, 0, 0] => out.put_text(b"undo last"),
        [3, low, high] => out.put_count("undo", u16::from_le_bytes([*low, *high])),
        _ => put_bytes(out, bytes),
    }
}
