// A sheet as text: its lines, and the first that cannot stand where it does. specs/Lines has the words, specs/Reading the net
// that the lines say.
#![tactic(auto)]

ghost use Rattle.std.specs.Prelude.{◌≡◌, not, ◌&&◌, ◌<◌, ◌≤◌, eqb, length, drop};
ghost use Rattle.std.proofs.Math.Seq.{slice};
ghost use Rattle.lexing.specs.Tokens.{row};
ghost use Rattle.sheet_text.specs.Lines.{line_of, step_line_of};
ghost use Rattle.sheet_text.specs.Reading.{read_text};
ghost use Rattle.sheet_text.specs.Counts.{admits_by, counts_after, mistake_in};

use forms::{has_form, nth_number};
use lexing::{Class, end_of};

// A line of a sheet's text. `Wrong` has no form.
#[derive(Clone, Copy)]
pub enum Line {
    Blank,
    Places(u32),
    Part(u32, u32),
    Coupled(u32, u32),
    Step(u32),
    Move(u32, u32, u32),
    Before(u32, u32),
    After(u32, u32),
    Wrong,
}

// A line that says what a step does. The caller reads from within the text, as below.
fn step_line(text: &[u8], at: usize) -> Line
    requires { at ≤ length text.now }
    ensures { result ≡ step_line_of (row 8 (drop at text.now)) }
{
    let p = nth_number(text, at, 0, 8);
    let q = nth_number(text, at, 1, 8);
    if has_form(text, at, b"move 255 from 255 to 255", 8) {
        Line::Move(p, q, nth_number(text, at, 2, 8))
    } else if has_form(text, at, b"before 255 255", 8) {
        Line::Before(p, q)
    } else if has_form(text, at, b"after 255 255", 8) {
        Line::After(p, q)
    } else {
        Line::Wrong
    }
}

// The line at a position, which lies in the text.
pub fn line_of(text: &[u8], at: usize) -> Line
    requires { at ≤ length text.now }
    ensures { result ≡ line_of (row 8 (drop at text.now)) }
{
    if has_form(text, at, b"", 8) {
        return Line::Blank;
    }
    let p = nth_number(text, at, 0, 8);
    let q = nth_number(text, at, 1, 8);
    if has_form(text, at, b"places 255", 8) {
        Line::Places(p)
    } else if has_form(text, at, b"part 255 at 255", 8) {
        Line::Part(p, q)
    } else if has_form(text, at, b"coupled 255 255", 8) {
        Line::Coupled(p, q)
    } else if has_form(text, at, b"step 255", 8) {
        Line::Step(p)
    } else {
        step_line(text, at)
    }
}

// The first line that cannot stand where it does: its number, from 1, and what it is. 0 and `Blank`: there is none.
// Kept: `mistake_in` of specs/Counts, the clause of first_mistake, gives line 0 where there is none.
#[derive(Clone, Copy)]
pub struct Mistake {
    pub line: usize,
    pub what: Line,
}

// What was read: whether `places` was given, and how many parts and steps.
#[derive(Clone, Copy)]
pub struct Counts {
    pub told: bool,
    pub parts: usize,
    pub steps: usize,
}

impl Counts {
    // A line may stand behind what was read: a part's number is its turn, and the start comes before the steps.
    fn admits(self, l: Line) -> bool
        ensures { result ≡ admits_by self.told self.parts self.steps l }
    {
        match l {
            Line::Blank => true,
            Line::Places(_) => !self.told && self.steps == 0,
            Line::Part(p, _) => p as usize == self.parts && self.steps == 0,
            Line::Coupled(..) => self.steps == 0,
            Line::Step(k) => k as usize == self.steps,
            Line::Move(..) | Line::Before(..) | Line::After(..) => self.steps != 0,
            Line::Wrong => false,
        }
    }

    // What was read, with a line more. Both counts are at most the bytes that the caller has passed.
    fn with(self, l: Line) -> Counts
        requires { (self.parts < usize.MAX) × (self.steps < usize.MAX) }
        ensures { result ≡ counts_after self.told self.parts self.steps l }
    {
        match l {
            Line::Places(_) => Counts { told: true, ..self },
            Line::Part(..) => Counts {
                parts: self.parts + 1,
                ..self
            },
            Line::Step(_) => Counts {
                steps: self.steps + 1,
                ..self
            },
            _ => self,
        }
    }
}

// The line between two positions, which the caller has found in the text.
pub fn line_at(text: &[u8], at: usize, to: usize) -> Line
    requires { (at ≤ to) × (to ≤ length text.now) }
    ensures { result ≡ line_of (row 8 (slice at to text.now)) }
{
    line_of(&text[at..to], 0)
}

// The first line that cannot stand where it does; line 0 where the text is understood.
pub fn first_mistake(text: &[u8]) -> Mistake
    ensures { result ≡ mistake_in (read_text text.now) }
{
    let none = Mistake {
        line: 0,
        what: Line::Blank,
    };
    let mut at = 0;
    let mut line = 1;
    let mut seen = Counts {
        told: false,
        parts: 0,
        steps: 0,
    };
    while at < text.len() {
        let to = end_of(text, at, Class::InLine);
        let what = line_at(text, at, to);
        if !seen.admits(what) {
            return Mistake { line, what };
        }
        if text.len() <= to {
            return none;
        }
        seen = seen.with(what);
        at = to + 1;
        line += 1;
    }
    none
}
