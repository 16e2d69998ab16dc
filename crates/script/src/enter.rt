// What a line of a script is, where it stands: a sheet's lines are passed until `session`, which reads them; an answer that waits is held
// against `expect`, or printed. What is left to do then needs the record, and is the desk's.
ghost use Rattle.std.specs.Prelude.{◌≤◌, length};

use crate::blocks::{begin_block, give_up, pass_order};
use lexing::next;
use script_lines::form::{Form, form_of, is_command};
use script_lines::same::same_items;
use script_lines::say::{print_difference, print_slip};
use script_lines::sheets::{Mistake, sheet_in};
use script_lines::state::State;
use wording::part::{behind, between, without_comment};
use wording::put::Text;

// A line of a script, between two positions of it.
#[derive(Clone, Copy)]
pub struct Line<'a> {
    pub text: &'a [u8],
    pub at: usize,
    pub to: usize,
    pub form: Form,
}

impl<'a> Line<'a> {
    pub fn new(text: &'a [u8], at: usize, to: usize) -> Line<'a> {
        Line {
            text,
            at,
            to,
            form: form_of(between(text, at, to)),
        }
    }

    pub fn bytes(&self) -> &'a [u8] {
        between(self.text, self.at, self.to)
    }
}

// What is left to do with a line once it is clear what it is: a session begins, a command, a block is handed in from where its lines
// begin, a question, an alteration.
#[derive(Clone, Copy)]
pub enum Left {
    Begin,
    Command,
    HandIn(usize),
    Ask,
    Change,
}

// `sheet`: its lines are passed from the next line on. The line ends at a position.
fn begin_sheet(state: &mut State<'_>, to: usize) {
    state.reading = true;
    state.from = to.saturating_add(1);
    state.from_line = state.line;
    state.started = false;
    state.broken = false;
}

// The sheet's lines had a mistake: nothing is run until the next sheet.
fn break_off(state: &mut State<'_>, m: Mistake) {
    let line = state.from_line.saturating_add(m.line);
    let written = print_slip(1, state.name, line, m.slip);
    state.wrote(written);
    state.mistakes = state.mistakes.saturating_add(1);
    state.broken = true;
}

// The sheet whose lines end at a position of the text is read.
pub fn read_lines(text: &[u8], to: usize, state: &mut State<'_>, sheet: &mut [u8])
    requires { 65536 ≤ length sheet.old }
{
    state.reading = false;
    state.from_end = to;
    state.altered = false;
    match sheet_in(between(text, state.from, to), sheet) {
        Ok(n) => state.length = n,
        Err(m) => {
            state.length = 0;
            break_off(state, m);
        }
    }
}

// `session`. A session more is on the sheet as it was read.
fn session_line(line: Line<'_>, state: &mut State<'_>, sheet: &mut [u8]) -> Option<Left>
    requires { 65536 ≤ length sheet.old }
{
    if state.started {
        if state.altered {
            read_lines(line.text, state.from_end, state, sheet);
        }
        return Some(Left::Begin);
    }
    if state.broken {
        return None;
    }
    if !state.reading {
        state.mistake(b"`sheet` and its lines before `session`");
        return None;
    }
    read_lines(line.text, line.at, state, sheet);
    if state.broken {
        None
    } else {
        Some(Left::Begin)
    }
}

// Whether the answer that waits is the rest of the line; if not, both are printed.
fn met(state: &mut State<'_>, wanted: &[u8], came: &[u8]) -> bool {
    state.expected = state.expected.saturating_add(1);
    if same_items(wanted, came) {
        return true;
    }
    state.differences = state.differences.saturating_add(1);
    print_difference(state.name, state.line, wanted, came)
}

// `expect`
fn expect_line(line: &[u8], state: &mut State<'_>, answer: &Text) {
    if state.waiting.is_none() {
        state.mistake(b"`expect` behind a command or a question");
        return;
    }
    let word = next(line, 0);
    let wanted = behind(without_comment(line), word.to);
    let written = met(state, wanted, answer.bytes());
    state.closed(written);
}

// A line that would need a session.
fn session_needed(state: &mut State<'_>) {
    if !state.broken {
        state.mistake(b"`sheet`, its lines and `session` first");
    }
}

fn other_line(state: &mut State<'_>) {
    state.mistake(
        b"`fire K`, `undo last`, `undo S`, `hex BYTES`, `block`, `hand in`, `where`, `couplings`, `live`, `moved S`, `step of S`, `tally`, `why`, `page N`, `row N I`, `lamp S`, `lamps`, `movers`, `spread S`, `listing`, `way back part P at X ..`, `with AT BYTE`, `cut LENGTH`, `expect ANSWER`, `sheet` or `session`",
    );
}

// A line of a session that has begun.
fn in_session(line: Line<'_>, state: &mut State<'_>) -> Option<Left> {
    match line.form {
        Form::Fire | Form::UndoLast | Form::Undo | Form::Hex => return Some(Left::Command),
        Form::Block => begin_block(state, line.to),
        Form::HandIn => state.mistake(b"`block` and commands before `hand in`"),
        Form::Other => other_line(state),
        Form::Alter => return Some(Left::Change),
        _ => return Some(Left::Ask),
    }
    None
}

// A line in a block that begins at a position. One that is none of a block is left out of it.
fn in_block(line: Line<'_>, from: usize, state: &mut State<'_>) -> Option<Left> {
    if is_command(line.form) {
        pass_order(line.bytes(), line.form, state);
        return None;
    }
    match line.form {
        Form::HandIn => return Some(Left::HandIn(from)),
        Form::Blank => {}
        _ => state.mistake(b"`fire K`, `undo last`, `undo S`, `hex BYTES` or `hand in`"),
    }
    None
}

// A line that is none of a block's, and neither blank nor one of a sheet.
fn out_of_block(
    line: Line<'_>,
    state: &mut State<'_>,
    sheet: &mut [u8],
    answer: &Text,
) -> Option<Left>
    requires { 65536 ≤ length sheet.old }
{
    if line.form == Form::Expect {
        expect_line(line.bytes(), state, answer);
        return None;
    }
    state.tell(sheet, answer);
    match line.form {
        Form::Sheet => {
            begin_sheet(state, line.to);
            None
        }
        Form::Session => session_line(line, state, sheet),
        _ if state.started => in_session(line, state),
        _ => {
            session_needed(state);
            None
        }
    }
}

// The next line. `sheet` and `session` end a block; in a sheet all other lines are passed.
pub fn enter_line(
    line: Line<'_>,
    state: &mut State<'_>,
    sheet: &mut [u8],
    answer: &Text,
) -> Option<Left>
    requires { 65536 ≤ length sheet.old }
{
    state.line = state.line.saturating_add(1);
    let begins = line.form == Form::Sheet || line.form == Form::Session;
    if begins {
        give_up(state);
    }
    if let Some(from) = state.block {
        return in_block(line, from, state);
    }
    if !begins && (line.form == Form::Blank || state.reading) {
        return None;
    }
    out_of_block(line, state, sheet, answer)
}
