// Parts of a slice by positions that may lie outside it: then as much as there is.
// So no caller has to show where its positions lie.

// The first n bytes.
pub fn front(s: &[u8], n: usize) -> &[u8] {
    s.get(..n).unwrap_or(s)
}

// The bytes from a position on.
pub fn behind(s: &[u8], at: usize) -> &[u8] {
    s.get(at..).unwrap_or(b"")
}

// The bytes between two positions.
pub fn between(s: &[u8], from: usize, to: usize) -> &[u8] {
    behind(front(s, to), from)
}

// A line without its comment and the blanks before it.
pub fn without_comment(line: &[u8]) -> &[u8] {
    let text = line.split(|c| *c == b'#').next().unwrap_or(line);
    let last = text.iter().rposition(|c| 32 < *c);
    front(text, last.map_or(0, |i| i + 1))
}
