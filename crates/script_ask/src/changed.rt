// Questions about the sheet with some bytes changed or cut short: how starting on it would be answered.
// The sheet itself stays as it is.
ghost use Rattle.std.specs.Prelude.{length, ◌≡◌};

use crate::ask::refusal_of;
use script_lines::form::{byte, number};
use wording::answer::put_start;
use wording::part::front;
use wording::put::Text;

// Room for any sheet that the format can hold.
const ROOM: usize = 65536;

// A copy of a sheet, with zeros behind it.
fn copy(sheet: &[u8]) -> [u8; ROOM]
    ensures { 65536 ≡ length result }
{
    let mut room = [0; ROOM];
    for (to, from) in room.iter_mut().zip(sheet) {
        *to = *from;
    }
    room
}

// The byte that one number of a line names becomes what another says.
fn change(line: &[u8], at: usize, value: usize, room: &mut [u8]) {
    let i = usize::from(number(line, at));
    if i < room.len() {
        room[i] = byte(line, value);
    }
}

// How starting on a sheet is answered.
fn put_started(sheet: &[u8], answer: &mut Text) {
    put_start(answer, refusal_of(sheet), sheet.len());
}

// The sheet with n bytes changed.
pub fn put_with(line: &[u8], n: u8, sheet: &[u8], answer: &mut Text) {
    let mut room = copy(sheet);
    for i in 0..usize::from(n) {
        change(line, 2 * i, 2 * i + 1, &mut room);
    }
    put_started(front(&room, sheet.len()), answer);
}

// The sheet's first bytes, or with zeros behind it, and n of them changed.
pub fn put_cut(line: &[u8], n: u8, sheet: &[u8], answer: &mut Text) {
    let mut room = copy(sheet);
    for i in 0..usize::from(n) {
        change(line, 2 * i + 1, 2 * i + 2, &mut room);
    }
    put_started(front(&room, usize::from(number(line, 0))), answer);
}
