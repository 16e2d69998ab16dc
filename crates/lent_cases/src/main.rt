// What is lent to a call, at lengths that no script of the desk has: lists of firings and buffers for pages (pages), buffers for answer
// lines (lines), blocks and lists for their answers (blocks). The file stdout was worked out from documents 01 and 02.
#![tactic(auto)]

mod blocks;
mod lines;
mod pages;

use blocks::all_blocks;
use io::write_all;
use lines::all_lines;
use pages::all_pages;

// Whether all bytes from a position on are `#`, as they were.
fn untouched(buf: &[u8], from: usize) -> bool {
    buf.iter().skip(from).all(|&b| b == b'#')
}

fn print_kept(kept: bool) {
    if kept {
        write_all(1, b", the rest as it was\n");
    } else {
        write_all(1, b", THE REST CHANGED\n");
    }
}

fn main() {
    all_pages();
    all_lines();
    all_blocks();
}
