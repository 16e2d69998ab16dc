// The answer line into lent buffers (document 01, the turned-away list, 22; the exam program): one of 23 bytes is refused, one of 24 is
// written to. Prints the line; what lies behind it in the buffer is looked at.
use crate::{print_kept, untouched};
use commands::Answer;
use io::{print_decimal, write_all};
use net::Key;
use report::answer_line;

// A byte more than the longest line needs.
const ROOM: usize = 25;

fn print_case(room: usize, command: u32) {
    write_all(1, b"command ");
    print_decimal(1, u64::from(command));
    write_all(1, b", ");
    print_decimal(1, room as u64);
    write_all(1, b" bytes: ");
}

fn print_line(buf: &[u8], refusal: u8, length: usize) {
    if refusal != 0 {
        write_all(1, b"refused ");
        print_decimal(1, u64::from(refusal));
    } else {
        write_all(1, b"printed");
    }
    print_kept(untouched(buf, length));
    if let Some(line) = buf.get(..length) {
        write_all(1, line);
    }
}

// A line into the first `room` bytes of a buffer.
fn case(room: usize, command: u32, answer: Answer, key: u16) {
    print_case(room, command);
    let mut bytes = [b'#'; ROOM];
    let buf = &mut bytes[..room.min(ROOM)];
    let done = answer_line(buf, command, answer, Key(key));
    print_line(buf, done.refusal, done.length);
}

pub fn all_lines() {
    case(0, 1, Answer::Fired, 1);
    case(23, 1, Answer::Fired, 1);
    case(24, 1, Answer::Fired, 1);
    case(24, 4294967295, Answer::Undone, 65535);
    case(25, 4294967295, Answer::Undone, 65535);
    case(25, 65535, Answer::Refused(19), 7);
}
