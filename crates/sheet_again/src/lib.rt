// A sheet printed as text and read again, in one call: for every accepted sheet that gives its own bytes. specs/Again says
// what comes of any bytes.
#![tactic(auto)]

ghost use Rattle.std.specs.Prelude.{◌≡◌, ◌≤◌, length};
ghost use Rattle.std.proofs.lemmas.List.Edits.{sets};
ghost use Rattle.sheet_print.specs.Room.{text_room};
ghost use Rattle.sheet_print.specs.Printing.{text_printed};
ghost use Rattle.sheet_again.specs.Again.{again_of, bytes_again};

use sheet_draft::{Made, read_sheet};
use sheet_print::{Printed, print_sheet};

// What came of it: what was read from the text, or the number of document 01's list for a sheet that is refused.
#[derive(Clone, Copy)]
pub enum Again {
    Read(Made),
    Refused(u8),
}

// The sheet printed into `text`, and what was printed read into `buf`: for an accepted sheet `buf` then begins with its
// bytes; for a refused one nothing is written. The caller lends room for the longest text and for the longest sheet.
pub fn read_printed(sheet: &[u8], text: &mut [u8], buf: &mut [u8]) -> Again
    requires { (text_room ≤ length text.old) × (65535 ≤ length buf.old) }
    ensures value { result ≡ again_of sheet.now }
    ensures text_after { text.new ≡ sets text.old 0 (text_printed sheet.now) }
    ensures buf_after { buf.new ≡ sets buf.old 0 (bytes_again sheet.now) }
{
    match print_sheet(sheet, text) {
        Printed::Text(n) => Again::Read(read_sheet(&text[..n], buf)),
        Printed::Refused(n) => Again::Refused(n),
    }
}
