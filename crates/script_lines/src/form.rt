// The lines of a script by their forms. A form is the line with its greatest numbers (crate forms).
// A line that has none of these is one of a sheet, or a mistake.
use forms::{has_form, nth_number};

// What a line is, by its form.
#[derive(Clone, Copy, PartialEq, Eq)]
pub enum Form {
    Blank,
    // What begins a sheet, a session, a block; what ends a block.
    Sheet,
    Session,
    Block,
    HandIn,
    // Commands; `hex` gives one by its bytes, or a line of a sheet.
    Fire,
    UndoLast,
    Undo,
    Hex,
    // Questions about the sheet with so many bytes changed, and cut short with so many changed.
    With(u8),
    Cut(u8),
    // About the tally; why a command was refused; about the record.
    Tally,
    Why,
    Where,
    Couplings,
    Live,
    Moved,
    StepOf,
    Movers,
    // By the customer's calls: what can come off, how far a firing spreads, the listing, a page and a row of one, the way back.
    Lamp,
    Lamps,
    Spread,
    Listing,
    Page,
    Row,
    WayBack,
    Expect,
    // For tests.
    Alter,
    Each,
    Other,
}

// The forms of whole lines.
const FORMS: [(&[u8], Form); 28] = [
    (b"", Form::Blank),
    (b"sheet", Form::Sheet),
    (b"session", Form::Session),
    (b"block", Form::Block),
    (b"hand in", Form::HandIn),
    (b"fire 65535", Form::Fire),
    (b"undo last", Form::UndoLast),
    (b"undo 65535", Form::Undo),
    (b"with 65535 255", Form::With(1)),
    (b"with 65535 255 65535 255", Form::With(2)),
    (b"with 65535 255 65535 255 65535 255", Form::With(3)),
    (
        b"with 65535 255 65535 255 65535 255 65535 255",
        Form::With(4),
    ),
    (b"cut 65535", Form::Cut(0)),
    (b"cut 65535 65535 255", Form::Cut(1)),
    (b"tally", Form::Tally),
    (b"why", Form::Why),
    (b"where", Form::Where),
    (b"couplings", Form::Couplings),
    (b"live", Form::Live),
    (b"moved 65535", Form::Moved),
    (b"step of 65535", Form::StepOf),
    (b"movers", Form::Movers),
    (b"lamp 65535", Form::Lamp),
    (b"lamps", Form::Lamps),
    (b"spread 65535", Form::Spread),
    (b"listing", Form::Listing),
    (b"page 65535", Form::Page),
    (b"row 65535 51", Form::Row),
];

// No line of a script has more items than this, those of `expect` and `hex` aside.
const ITEMS: usize = 12;

// Number k of a line, which its form has bounded.
pub fn number(line: &[u8], k: usize) -> u16 {
    (nth_number(line, 0, k, ITEMS) % 65536) as u16
}

// Number k of a line, which its form has bounded by 255.
pub fn byte(line: &[u8], k: usize) -> u8 {
    (nth_number(line, 0, k, ITEMS) % 256) as u8
}

// What the first form of a list that a line has stands for.
pub fn thing_in<T: Copy>(line: &[u8], list: &[(&[u8], T)]) -> Option<T> {
    for (form, thing) in list {
        if has_form(line, 0, form, ITEMS) {
            return Some(*thing);
        }
    }
    None
}

// A line of which the beginning alone is a form.
fn beginning(line: &[u8]) -> Form {
    if has_form(line, 0, b"expect", 1) {
        Form::Expect
    } else if has_form(line, 0, b"hex", 1) {
        Form::Hex
    } else if has_form(line, 0, b"way back", 2) {
        Form::WayBack
    } else if has_form(line, 0, b"alter", 1) {
        Form::Alter
    } else if has_form(line, 0, b"each", 1) {
        Form::Each
    } else {
        Form::Other
    }
}

pub fn form_of(line: &[u8]) -> Form {
    match thing_in(line, &FORMS) {
        Some(form) => form,
        None => beginning(line),
    }
}

// Whether a form is a command's.
pub fn is_command(form: Form) -> bool {
    matches!(form, Form::Fire | Form::UndoLast | Form::Undo | Form::Hex)
}
