// A file at the desk: read whole, and gone through as a script, made into the exam program's input, or shown as a script.
// Failed reads and writes are said on standard error.
use reading::{Got, read_all};
use script::desk::run_script;
use script_make::files::make;
use std::env::Env;
use std::fs;
use std::io::{Error, Read, Write};
use std::str::from_utf8;

// Room for a script or an input, for a sheet, and for the longest answer. Only their lengths matter.
const TEXT: usize = 1048576;

const SHEET: usize = 65536;

const ANSWER: usize = 16384;

// Kept: where so many zeros are written out in a function with calls, the check unfolds them, and runs out of stack.
fn text_room() -> [u8; TEXT] {
    [0; TEXT]
}

fn sheet_room() -> [u8; SHEET] {
    [0; SHEET]
}

fn answer_room() -> [u8; ANSWER] {
    [0; ANSWER]
}

// ---- what is done with a file: each answers whether all was written

pub fn run(name: &[u8], text: &[u8]) -> bool {
    let mut sheet = sheet_room();
    let mut answer = answer_room();
    run_script(name, text, &mut sheet, &mut answer)
}

pub fn make_input(name: &[u8], text: &[u8]) -> bool {
    let mut sheet = sheet_room();
    make(name, text, &mut sheet)
}

// ---- a file

// Says on standard error what went wrong with a file.
fn complain(name: &[u8], words: &[u8]) {
    io::write_all(2, b"desk: ");
    io::write_all(2, name);
    io::write_all(2, words);
}

// One file, read whole: nothing is done with a part of it.
pub fn take_file<R: Read, F: Fn(&[u8], &[u8]) -> bool>(work: F, name: &[u8], input: &mut R)
    requires { F.IsAlwaysCallable work }
{
    let mut text = text_room();
    match read_all(input, &mut text) {
        Got::Full(_) => complain(name, b": has more than 1048575 bytes\n"),
        Got::Ended(n) => {
            if !work(name, &text[..n]) {
                complain(name, b": the output could not be written whole\n");
            }
        }
        Got::Failed(_) => complain(name, b": could not be read\n"),
    }
}

// What the system says of an error; the library writes its number behind that.
fn system_words(text: &[u8]) -> &[u8] {
    let Ok(all) = from_utf8(text) else {
        return text;
    };
    match all.find(" (os error ") {
        Some(n) => &all.as_bytes()[..n],
        None => text,
    }
}

// Says on standard error why a file was not opened.
fn complain_of(name: &[u8], error: Error) {
    let mut text = [0; 256];
    let mut room = &mut text[..];
    let _ = write!(room, "{error}");
    let n = 256usize.saturating_sub(room.len());
    io::write_all(2, name);
    io::write_all(2, b": ");
    io::write_all(2, system_words(&text[..n]));
    io::write_all(2, b"\n");
}

// The file of that name. The library opens only names that are text.
fn take_path<F: Fn(&[u8], &[u8]) -> bool>(rt: &HostRuntime, work: F, path: &[u8])
    requires { F.IsAlwaysCallable work }
{
    let Ok(name) = from_utf8(path) else {
        complain(path, b": the name is not text\n");
        return;
    };
    match fs::open(rt, name) {
        Ok(file) => {
            let mut input = file;
            take_file(work, path, &mut input);
        }
        Err(error) => complain_of(path, error),
    }
}

pub fn take_named<F: Fn(&[u8], &[u8]) -> bool>(rt: &HostRuntime, work: F, i: usize)
    requires { F.IsAlwaysCallable work }
{
    let mut path = io::buffer();
    match rt.arg(i, &mut path) {
        Ok(n) => take_path(rt, work, &path[..n]),
        Err(_) => complain(b"File name too long", b"\n"),
    }
}
