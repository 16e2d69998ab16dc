// Words and numbers in a text: the next of them from a position on. specs/Tokens says what a text holds, specs/Found how
// an answer stands for it.
#![tactic(auto)]

ghost use Rattle.std.specs.Prelude.{◌≡◌, ◌-◌, ◌<◌, ◌≤◌, ◌&&◌, leb, length, drop};
ghost use Rattle.std.proofs.Math.Seq.{slice};
ghost use Rattle.lexing.specs.Tokens.{letter, digit, blank, in_line, front, past, ends, on_digit, joins, worded, numbered, ended, begins, next_of, more, value, too_much};
ghost use Rattle.lexing.specs.Found.{passes, Reaches, Stands};

// What stands at a position. A word is given by where it stands; a number is below 65,536, or 65,536 where it is not.
#[derive(Clone, Copy)]
pub enum Kind {
    Word,
    Number(u32),
    Line,
    End,
    Wrong,
}

// A piece of a text: from where to where, and what it is.
#[derive(Clone, Copy)]
pub struct Piece {
    pub kind: Kind,
    pub from: usize,
    pub to: usize,
}

// The classes of letters.
// Kept: `Reaches`, the clause of `end_of`, names the class, and other crates pass it.
#[derive(Clone, Copy)]
pub enum Class {
    Blank,
    Letter,
    Digit,
    InLine,
}

// A letter is of a class. A blank is a space, a tab, a carriage return; not the newline.
fn is_of(class: Class, c: u8) -> bool
    ensures { result ≡ passes class c }
{
    match class {
        Class::Blank => c <= b' ' && c != b'\n',
        Class::Letter => c.is_ascii_lowercase(),
        Class::Digit => c.is_ascii_digit(),
        Class::InLine => c != b'\n',
    }
}

// Where the letters of a class that stand from `at` on end. Here and below, where it is required: a caller reads from within
// the text.
pub fn end_of(text: &[u8], at: usize, class: Class) -> usize
    requires { at ≤ length text.now }
    ensures { Reaches text.now at class result }
{
    for i in at..text.len() {
        if !is_of(class, text[i]) {
            return i;
        }
    }
    text.len()
}

// One digit more of a number; 65,536 where it is no longer below it.
fn one_more(v: u32, c: u8) -> u32
    ensures { result ≡ more v c }
{
    v.saturating_mul(10)
        .saturating_add(u32::from(c.saturating_sub(b'0')))
        .min(65536)
}

// The number that the digits between two positions are. The caller has found both in the text.
fn value_of(text: &[u8], from: usize, to: usize) -> u32
    requires { (from ≤ to) × (to ≤ length text.now) }
    ensures { result ≡ value (slice from to text.now) }
{
    text[from..to].iter().fold(0, |v, &c| one_more(v, c))
}

// An item may end here: at the end of the text, a blank, a newline or a comment.
fn ends_at(text: &[u8], at: usize) -> bool
    ensures { result ≡ ends (drop at text.now) }
{
    text.get(at).is_none_or(|&c| c <= b' ' || c == b'#')
}

// A digit stands here.
fn digit_at(text: &[u8], at: usize) -> bool
    ensures { result ≡ on_digit (drop at text.now) }
{
    text.get(at).is_some_and(|&c| is_of(Class::Digit, c))
}

// A hyphen stands here and a digit behind it.
fn joins_at(text: &[u8], at: usize) -> bool
    ensures { result ≡ joins (drop at text.now) }
{
    at < text.len() && text[at] == b'-' && digit_at(text, at + 1)
}

// A word that begins here.
fn word_at(text: &[u8], from: usize) -> Piece
    requires { from ≤ length text.now }
    ensures { Stands text.now result (worded (front letter (drop from text.now)) (past letter (drop from text.now))) }
{
    let to = end_of(text, from, Class::Letter);
    let kind = if ends_at(text, to) {
        Kind::Word
    } else {
        Kind::Wrong
    };
    Piece { kind, from, to }
}

// A number that begins here. A hyphen that joins it to the next is passed.
fn number_at(text: &[u8], from: usize) -> Piece
    requires { from ≤ length text.now }
    ensures { Stands text.now result (numbered (value (front digit (drop from text.now))) (past digit (drop from text.now))) }
{
    let to = end_of(text, from, Class::Digit);
    let kind = Kind::Number(value_of(text, from, to));
    if ends_at(text, to) {
        Piece { kind, from, to }
    } else if joins_at(text, to) {
        Piece {
            kind,
            from,
            to: to + 1,
        }
    } else {
        Piece {
            kind: Kind::Wrong,
            from,
            to,
        }
    }
}

// What follows a comment that begins here.
fn comment_at(text: &[u8], from: usize) -> Piece
    requires { from ≤ length text.now }
    ensures { Stands text.now result (ended (past in_line (drop from text.now))) }
{
    let stop = end_of(text, from, Class::InLine);
    if stop < text.len() {
        Piece {
            kind: Kind::Line,
            from: stop,
            to: stop + 1,
        }
    } else {
        Piece {
            kind: Kind::End,
            from: stop,
            to: stop,
        }
    }
}

// What begins here, behind the blanks.
fn begun_at(text: &[u8], from: usize) -> Piece
    requires { from ≤ length text.now }
    ensures { Stands text.now result (begins (drop from text.now)) }
{
    if text.len() <= from {
        return Piece {
            kind: Kind::End,
            from,
            to: from,
        };
    }
    match text[from] {
        b'a'..=b'z' => word_at(text, from),
        b'0'..=b'9' => number_at(text, from),
        b'\n' => Piece {
            kind: Kind::Line,
            from,
            to: from + 1,
        },
        b'#' => comment_at(text, from),
        _ => Piece {
            kind: Kind::Wrong,
            from,
            to: from + 1,
        },
    }
}

// The next word or number of a text, from a position on.
#[tactic(auto, unfolding(crate::specs::Tokens::next_of))]
pub fn next(text: &[u8], at: usize) -> Piece
    requires { at ≤ length text.now }
    ensures { Stands text.now result (next_of (drop at text.now)) }
{
    begun_at(text, end_of(text, at, Class::Blank))
}
