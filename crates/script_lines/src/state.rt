// What the desk holds between two lines of a script; the record goes beside it.
use crate::command::Order;
use crate::say::{print_answer, print_mistake, print_refused};
use tally::Tally;
use wording::part::front;
use wording::put::Text;
use wording::refused::put_refused;

// An answer that waits: its line, and the number of a refused sheet in it, 0 where there is none.
#[derive(Clone, Copy)]
pub struct Waiting {
    pub line: usize,
    pub refusal: u8,
}

#[derive(Drop)]
pub struct State<'a> {
    // The file's name; the line in hand; whether a write failed.
    pub name: &'a [u8],
    pub line: usize,
    lost: bool,
    // Whether a sheet's lines are passed: from where in the text, and the line of `sheet`. Where the lines end of the sheet that was
    // read, and whether it was altered since.
    pub reading: bool,
    pub from: usize,
    pub from_line: usize,
    pub from_end: usize,
    pub altered: bool,
    // Whether the last sheet was not understood; whether a session is on, on a sheet of so many bytes.
    pub broken: bool,
    pub started: bool,
    pub length: usize,
    // Where in the text a block's lines begin, while they are passed; how many bytes its commands, or those of the last block, have.
    pub block: Option<usize>,
    pub block_bytes: usize,
    // The last command; the number that it, or a block behind it, was refused by, and the serial that came with its answer: 0 for none.
    pub asked: Option<Order>,
    pub refusal: u8,
    pub serial: u16,
    pub waiting: Option<Waiting>,
    // The counts of the whole file, and the tally of the session.
    pub answers: usize,
    pub expected: usize,
    pub differences: usize,
    pub mistakes: usize,
    pub tally: Tally,
    // For tests: whether the next session keeps the record; the parts that a layout is of, where that was altered.
    pub kept: bool,
    pub layout: Option<usize>,
}

impl<'a> State<'a> {
    // At a file's start.
    pub fn new(name: &'a [u8]) -> State<'a> {
        State {
            name,
            line: 0,
            lost: false,
            reading: false,
            from: 0,
            from_line: 0,
            from_end: 0,
            altered: false,
            broken: false,
            started: false,
            length: 0,
            block: None,
            block_bytes: 0,
            asked: None,
            refusal: 0,
            serial: 0,
            waiting: None,
            answers: 0,
            expected: 0,
            differences: 0,
            mistakes: 0,
            tally: Tally {
                fired: 0,
                undone: 0,
                refused: 0,
            },
            kept: false,
            layout: None,
        }
    }

    // Whether every write went through, this one too.
    pub fn wrote(&mut self, written: bool) -> bool {
        self.lost |= !written;
        !self.lost
    }

    // An answer stands in its buffer.
    pub fn opened(&mut self) {
        self.opened_refused(0);
    }

    // The same, of a refused sheet; 0 where it is not refused.
    pub fn opened_refused(&mut self, refusal: u8) {
        self.waiting = Some(Waiting {
            line: self.line,
            refusal,
        });
        self.answers = self.answers.saturating_add(1);
    }

    pub fn closed(&mut self, written: bool) {
        self.waiting = None;
        self.wrote(written);
    }

    // A line that was not understood.
    pub fn mistake(&mut self, words: &[u8]) {
        let written = print_mistake(1, self.name, self.line, words);
        self.wrote(written);
        self.mistakes = self.mistakes.saturating_add(1);
    }

    // A command's bytes that were not understood.
    pub fn bad_bytes(&mut self) {
        self.mistake(b"`hex` and at most 4 bytes, two digits 0 to 9, a to f, for each");
    }

    // What a refused command or block may not do: a difference.
    pub fn left_changed(&mut self) {
        let words = b"differs: what is refused leaves the very record, and has no serial";
        let written = print_answer(self.name, self.line, words);
        self.wrote(written);
        self.differences = self.differences.saturating_add(1);
    }

    // The sheet that its buffer begins with.
    pub fn sheet_of<'b>(&self, buf: &'b [u8]) -> &'b [u8] {
        front(buf, self.length)
    }

    // The last command's bytes; where there was none, those of no kind.
    pub fn asked_bytes(&self) -> &[u8] {
        match &self.asked {
            Some(order) => order.bytes(),
            None => b"\x00\x00\x00",
        }
    }

    // The answer that waits is printed; behind that of a refused sheet its reason.
    pub fn tell(&mut self, sheet: &[u8], answer: &Text) {
        let Some(open) = self.waiting else {
            return;
        };
        let written = if open.refusal == 0 {
            print_answer(self.name, open.line, answer.bytes())
        } else {
            self.print_refused_sheet(open, sheet, answer)
        };
        self.closed(written);
    }

    fn print_refused_sheet(&self, open: Waiting, sheet: &[u8], answer: &Text) -> bool {
        let mut room = [0; 256];
        let mut reason = Text::new(&mut room);
        put_refused(&mut reason, self.sheet_of(sheet), open.refusal);
        print_refused(self.name, open.line, answer.bytes(), reason.bytes())
    }
}
