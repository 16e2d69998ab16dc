// Whether two lines have the same words and numbers (crate lexing), however they are spaced; comments do not count.
// An answer is held against what was expected so.
use lexing::{Kind, Piece, next};
use wording::part::{behind, between};

// The line ends here.
fn closes(kind: Kind) -> bool {
    matches!(kind, Kind::Line | Kind::End)
}

// Two items are the same word or the same number. What is neither is like nothing.
fn same_item(a: &[u8], p: Piece, b: &[u8], q: Piece) -> bool {
    match (p.kind, q.kind) {
        (Kind::Word, Kind::Word) => between(a, p.from, p.to) == between(b, q.from, q.to),
        (Kind::Number(m), Kind::Number(n)) => m == n,
        _ => false,
    }
}

pub fn same_items(a: &[u8], b: &[u8]) -> bool {
    let mut came = a;
    let mut wanted = b;
    for _ in 0..a.len() {
        let p = next(came, 0);
        let q = next(wanted, 0);
        if closes(p.kind) {
            return closes(q.kind);
        }
        if !same_item(came, p, wanted, q) {
            return false;
        }
        came = behind(came, p.to);
        wanted = behind(wanted, q.to);
    }
    closes(next(wanted, 0).kind)
}
