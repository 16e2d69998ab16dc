// Text into a lent buffer. What does not fit is left out, so no caller has to see to the room: the longest answer of the desk
// is shorter than its buffer. Words are of small letters, so that any answer can be expected.
use std::fmt;
use std::fmt::{Display, Write};

// A lent buffer, and how much of it is text.
#[derive(Drop)]
pub struct Text<'a> {
    buf: &'a mut [u8],
    len: usize,
}

impl<'a> Text<'a> {
    pub fn new(buf: &'a mut [u8]) -> Text<'a> {
        Text { buf, len: 0 }
    }

    pub fn len(&self) -> usize {
        self.len
    }

    pub fn is_empty(&self) -> bool {
        self.len == 0
    }

    pub fn bytes(&self) -> &[u8] {
        self.buf.get(..self.len).unwrap_or(b"")
    }

    pub fn clear(&mut self) {
        self.len = 0;
    }

    pub fn put(&mut self, c: u8) {
        if self.len < self.buf.len() {
            self.buf[self.len] = c;
            self.len += 1;
        }
    }

    pub fn put_text(&mut self, text: &[u8]) {
        for &c in text {
            self.put(c);
        }
    }

    // What has words of its own. A text takes all, so no write fails.
    pub fn say(&mut self, words: impl Display + Drop) {
        let _ = write!(self, "{words}");
    }

    // A space and a number.
    pub fn put_item(&mut self, n: impl Display + Drop) {
        let _ = write!(self, " {n}");
    }

    // A space and a coupling.
    pub fn put_coupling(&mut self, lo: u8, hi: u8) {
        let _ = write!(self, " {lo}-{hi}");
    }

    // A word and a number.
    pub fn put_count(&mut self, word: &str, n: impl Display + Drop) {
        let _ = write!(self, "{word} {n}");
    }

    pub fn put_refusal(&mut self, n: u8) {
        self.put_count("refused", n);
    }
}

impl Write for Text<'_> {
    fn write_str(&mut self, s: &str) -> fmt::Result {
        self.put_text(s.as_bytes());
        Ok(())
    }
}
