// What the programs of cases print on standard output.
// Numbers are decimal.

pub fn print_word(x: u16) {
    io::print_decimal(1, x.into());
}

// A name and a number; the line goes on.
fn print_named(name: &[u8], n: u64) {
    io::write_all(1, name);
    io::write_all(1, b": ");
    io::print_decimal(1, n);
}

// A name and a number, as a line.
pub fn print_count(name: &[u8], n: u64) {
    print_named(name, n);
    io::write_all(1, b"\n");
}

// How many of a group were run, and how many differed.
pub fn print_run(name: &[u8], run: u64, differed: u64) {
    print_named(name, run);
    io::write_all(1, b" run, ");
    io::print_decimal(1, differed);
    io::write_all(1, b" differed\n");
}

// A count that has to reach a floor, and whether it does.
pub fn print_floor(name: &[u8], n: u64, floor: u64) {
    print_named(name, n);
    io::write_all(1, b" (at least ");
    io::print_decimal(1, floor);
    if floor <= n {
        io::write_all(1, b": yes)\n");
    } else {
        io::write_all(1, b": no)\n");
    }
}

// The three counts of a tally.
pub fn print_tally(fired: u16, undone: u16, refused: u16) {
    io::write_all(1, b"tally");
    for n in [fired, undone, refused] {
        io::write_all(1, b" ");
        print_word(n);
    }
    io::write_all(1, b"\n");
}
