// Pages of lists of firings (document 02, T-01) by the customer's call, through `page_of`. Prints the answer, and the page where there
// is one; what lies behind the page in the buffer is looked at.
use crate::{print_kept, untouched};
use firings::Firing;
use io::{print_decimal, write_all};
use net::Key;
use page::page_of;
use words::low_bits;

// One more than a list may have.
const MOST: usize = 257;

// The bytes of a page, and room for it with bytes behind it.
const PAGE: usize = 2091;

const ROOM: usize = 2100;

// Firing i of every list: serial 65,535 less 250 i, step 255 less i, 64 less i moved parts, from 64 again after 0.
fn firing(i: usize) -> Firing {
    let k = i % 257;
    let n = 64 - k % 65;
    Firing {
        transition: (255 - k % 256) as u8,
        key: Key((65535 - 250 * k) as u16),
        moved: low_bits(n),
    }
}

fn all() -> [Firing; MOST] {
    std::array::from_fn(firing)
}

fn print_case(n: usize, number: u16, room: usize) {
    print_decimal(1, n as u64);
    write_all(1, b" firings, page ");
    print_decimal(1, u64::from(number));
    write_all(1, b", ");
    print_decimal(1, room as u64);
    write_all(1, b" bytes: ");
}

// The answer, and the page.
fn print_answer(number: u8, buf: &[u8]) {
    if number != 0 {
        write_all(1, b"refused ");
        print_decimal(1, u64::from(number));
        print_kept(untouched(buf, 0));
        return;
    }
    write_all(1, b"printed");
    print_kept(untouched(buf, PAGE));
    if let Some(page) = buf.get(..PAGE) {
        write_all(1, page);
    }
}

// A page of the first n firings into the first `room` bytes of a buffer.
fn case(n: usize, number: u16, room: usize) {
    print_case(n, number, room);
    let mut bytes = [b'#'; ROOM];
    let buf = &mut bytes[..room.min(ROOM)];
    let a = page_of(all(), n, number, buf);
    print_answer(a.number(), buf);
}

pub fn all_pages() {
    case(0, 0, 2100);
    case(0, 1, 2100);
    case(0, 2, 2100);
    case(1, 1, 2091);
    case(49, 1, 2091);
    case(50, 1, 2091);
    case(50, 2, 2091);
    case(51, 1, 2100);
    case(51, 2, 2100);
    case(100, 2, 2091);
    case(100, 3, 2091);
    case(101, 3, 2091);
    case(256, 6, 2100);
    case(256, 7, 2100);
    case(256, 65535, 2100);
    case(256, 6, 2090);
    case(257, 1, 2100);
    case(257, 0, 2090);
    case(257, 0, 2100);
    case(0, 1, 0);
}
