// An input of the exam program: a sheet with its length, and then the session's commands.
// The session's commands alone are a block.
use case_tools::bytes::{put, put_all};
use generated::drawn::{bytes_of, command_length};
use generated::rows::{command_noted, noted};

// The session's commands from a position on; where they end.
pub fn lay_commands(buf: &mut [u8], at: usize, w: &[u64]) -> usize {
    let mut e = at;
    for i in 0..noted(w) {
        let g = command_noted(w, i);
        put_all(buf, e % 65536, &bytes_of(g));
        e = e % 65536 + command_length(g);
    }
    e
}

// The input; where it ends.
pub fn lay_input(buf: &mut [u8], sheet: &[u8], w: &[u64]) -> usize {
    let length = sheet.len() % 65536;
    put(buf, 0, length as u64);
    put(buf, 1, (length / 256) as u64);
    put_all(buf, 2, sheet);
    lay_commands(buf, length + 2, w)
}
