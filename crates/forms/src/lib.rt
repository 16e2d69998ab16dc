// Does a line of a text have a form? A form is a line itself: its words are to be there, its numbers are the greatest allowed.
// `fits` says it of words and numbers.
#![tactic(auto)]

ghost use Rattle.std.specs.Prelude.{◌≡◌, ◌&&◌, ◌-◌, ◌≤◌, eqb, length, drop, get_or};
ghost use Rattle.std.proofs.Math.Seq.{slice};
ghost use Rattle.net.specs.Tests.{same_list, pick};
ghost use Rattle.lexing.specs.Tokens.{row};
ghost use Rattle.lexing.specs.Found.{token_of};
ghost use Rattle.forms.specs.Forms.{closes_kind, number_kind, value_kind, suits_word, suits_number, suits, fits, numbers, Lies};

use lexing::{Kind, Piece, next};

// The line ends here.
fn closes(kind: Kind) -> bool
    ensures { result ≡ closes_kind kind }
{
    matches!(kind, Kind::Line | Kind::End)
}

// An item of a line suits an item of a form: a word is the form's, a number is at most the form's. Both pieces were found in
// their texts.
fn suits(form: &[u8], q: Piece, text: &[u8], p: Piece) -> bool
    requires { Lies form.now q × Lies text.now p }
    ensures { result ≡ suits (token_of form.now q.from q.to q.kind) (token_of text.now p.from p.to p.kind) }
{
    match (q.kind, p.kind) {
        (Kind::Word, Kind::Word) => form[q.from..q.to] == text[p.from..p.to],
        (Kind::Number(m), Kind::Number(n)) => n <= m,
        _ => false,
    }
}

// The line at a position has a form, as far as n items. The caller reads from within the text, as below.
pub fn has_form(text: &[u8], at: usize, form: &[u8], n: usize) -> bool
    requires { at ≤ length text.now }
    ensures { result ≡ fits (row n form.now) (row n (drop at text.now)) }
{
    let mut i = at;
    let mut j = 0;
    for _ in 0..n {
        let q = next(form, j);
        let p = next(text, i);
        let done = closes(p.kind);
        if closes(q.kind) {
            return done;
        }
        if done || !suits(form, q, text, p) {
            return false;
        }
        i = p.to;
        j = q.to;
    }
    true
}

// Number k of the line at a position, as far as n items; 0 where there is none.
// Kept: its clause says 0, and other crates call it.
pub fn nth_number(text: &[u8], at: usize, k: usize, n: usize) -> u32
    requires { at ≤ length text.now }
    ensures { result ≡ get_or (numbers (row n (drop at text.now))) k 0 }
{
    let mut i = at;
    let mut skip = k;
    for _ in 0..n {
        let p = next(text, i);
        match p.kind {
            Kind::Line | Kind::End => return 0,
            Kind::Number(m) if skip == 0 => return m,
            Kind::Number(_) => skip -= 1,
            _ => {}
        }
        i = p.to;
    }
    0
}
