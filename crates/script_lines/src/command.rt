// Commands of a script as bytes: kind and number, or what is given in hexadecimal (document 01, commands, record, tally).
// A call looks at the first three bytes.
use crate::form::{Form, form_of, number};
use crate::hex::put_hex;
use wording::part::front;
use wording::put::Text;

// The bytes of a command, at most four.
#[derive(Clone, Copy)]
pub struct Order {
    bytes: [u8; 4],
    len: usize,
}

impl Order {
    pub fn bytes(&self) -> &[u8] {
        front(&self.bytes, self.len)
    }
}

// Bytes in hexadecimal, where they are at most four.
fn spelled(line: &[u8]) -> Option<Order> {
    let mut room = [0; 5];
    let mut out = Text::new(&mut room);
    put_hex(line, &mut out)?;
    let len = out.len();
    if 4 < len {
        return None;
    }
    let [a, b, c, d, _] = room;
    Some(Order {
        bytes: [a, b, c, d],
        len,
    })
}

// A kind and a number.
fn numbered(kind: u8, n: u16) -> Order {
    let [low, high] = n.to_le_bytes();
    Order {
        bytes: [kind, low, high, 0],
        len: 3,
    }
}

// The command that a line of that form says; none where its bytes cannot be read, or it says none.
pub fn command_of(form: Form, line: &[u8]) -> Option<Order> {
    match form {
        Form::Fire => Some(numbered(1, number(line, 0))),
        Form::UndoLast => Some(numbered(2, 0)),
        Form::Undo => Some(numbered(3, number(line, 0))),
        Form::Hex => spelled(line),
        _ => None,
    }
}

// The commands of all lines, joined; nothing of any other line, or of a command that cannot be read.
pub fn put_orders(text: &[u8], out: &mut Text) {
    for line in text.split(|c| *c == b'\n') {
        if let Some(order) = command_of(form_of(line), line) {
            out.put_text(order.bytes());
        }
    }
}
