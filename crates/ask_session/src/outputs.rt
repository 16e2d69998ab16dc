// Inputs through the program's own path (`output::write_output`), and their outputs compared with a text, byte for byte: the
// second engine's, or one that document 01 prints or that follows from it. At the most commands that the program reads, how long
// the output is, and its end, are printed.
use crate::input::lay_input;
use crate::lines::{Text, put_output};
use ask_tools::both::Both;
use case_tools::bytes::{byte, put_all};
use case_tools::counts::{judged, more, unless};
use generated::rows::part;
use output::{MAX_OUTPUT, write_output};
use samples::sheet_a;

// At the first byte that differs; past its end a text reads as 0. The bytes of all outputs are counted in 8.
fn judge(c: &mut [u64], ours: &[u8], theirs: &[u8]) {
    let n = ours.len().max(theirs.len());
    let differs = (0..n).find(|&i| byte(ours, i) != byte(theirs, i));
    let at = differs.unwrap_or(n);
    let (a, b) = (byte(ours, at), byte(theirs, at));
    more(c, 8, ours.len() as u64, true);
    judged(c, at as u64, u64::from(a), u64::from(b), unless(at == n, 1));
}

fn output_room() -> [u8; MAX_OUTPUT] {
    [0; MAX_OUTPUT]
}

// An input, and the text that its output is to be.
fn compare_output(c: &mut [u64], input: &[u8], text: &[u8]) {
    let mut out = output_room();
    let length = write_output(input, &mut out);
    judge(c, part(&out, 0, length), text);
}

// The session's commands as an input. Where input or text does not fit its room, that shows as a difference.
pub fn ask(c: &mut [u64], w: &[u64], b: &Both) {
    let mut input = [0u8; 40000];
    let length = lay_input(&mut input, b.sheet, w);
    let mut text = Text::new();
    let theirs = match put_output(&mut text, w, b) {
        Ok(()) => text.as_str(),
        Err(_) => "",
    };
    compare_output(c, part(&input, 0, length), theirs.as_bytes());
}

// Sheet A behind its length, 42 bytes, and document 01's six commands: 60 bytes.
fn printed_input() -> [u8; 60] {
    let a = sheet_a();
    let mut input = [0u8; 60];
    put_all(&mut input, 0, b"\x28\x00");
    put_all(&mut input, 2, &a);
    put_all(
        &mut input,
        42,
        b"\x01\x00\x00\x01\x01\x00\x03\x01\x00\x01\x00\x00\x03\x01\x00\x02\x00\x00",
    );
    input
}

// Document 01's whole example, the same without the last command's last byte, and inputs that end before the sheet does: how many bytes of
// the input are given, and the text.
pub fn printed(c: &mut [u64]) {
    let input = printed_input();
    let cases: [(usize, &[u8]); 9] = [
        (
            60,
            b"1 fired 1\n2 fired 2\n3 undone 1\n4 fired 3\n5 refused 19\n6 undone 3\nplaces 0 0 1\nlive 2\ntally 3 2 1\n",
        ),
        (
            59,
            b"1 fired 1\n2 fired 2\n3 undone 1\n4 fired 3\n5 refused 19\n6 refused 21\nplaces 1 1 1\nbond 0 1\nlive 2 3\ntally 3 1 2\n",
        ),
        (42, b"places 0 0 0\nlive\ntally 0 0 0\n"),
        (41, b"sheet refused 4\n"),
        (6, b"sheet refused 4\n"),
        (5, b"sheet refused 1\n"),
        (2, b"sheet refused 1\n"),
        (1, b"sheet refused 1\n"),
        (0, b"sheet refused 1\n"),
    ];
    for (size, text) in cases {
        compare_output(c, part(&input, 0, size), text);
    }
}

// Room for the sheet's length, sheet A and 65,536 commands. Bytes that no command has as its kind, everywhere.
fn unreadable() -> [u8; 196650] {
    [9; 196650]
}

// Prints the length of an output, and its last 51 bytes.
fn print_output(input: &[u8]) {
    let mut out = output_room();
    let n = write_output(input, &mut out);
    io::print_decimal(1, n as u64);
    io::write_all(1, b" bytes, at the end\n");
    if 51 <= n {
        io::write_all(1, part(&out, n - 51, n));
    }
}

// How many commands the program reads (document 01, the exam program): sheet A and bytes that cannot be read, so many in all.
pub fn print_limit(name: &[u8], n: usize) {
    let front = printed_input();
    let mut input = unreadable();
    put_all(&mut input, 0, part(&front, 0, 42));
    io::write_all(1, name);
    io::write_all(1, b": ");
    print_output(part(&input, 0, n));
}
