// A session at the desk: a script is gone through line by line. What a line is (enter) is settled first; then a session begins, or a
// command or a question has one answer, which the next `expect` is held against, or which is printed.
ghost use Rattle.std.specs.Prelude.{◌<◌, ◌≤◌, length};

use crate::blocks::{give_up, hand_in, hold_refused};
use crate::enter::{Left, Line, enter_line, read_lines};
use commands::{Answer, value_of, word_of};
use script_ask::alter::{alter_line, zeros};
use script_ask::ask::put_question;
use script_ask::each::each_line;
use script_ask::ways::way_line;
use script_lines::command::command_of;
use script_lines::form::Form;
use script_lines::say::print_total;
use script_lines::sheets::line_end;
use script_lines::state::State;
use session::{Record, command_with};
use session_start::start;
use tally::Tally;
use wording::answer::{put_heard, put_start};
use wording::part::between;
use wording::put::Text;

// A fresh record on the sheet in the buffer, or the one before; no command yet.
fn start_session(state: &mut State<'_>, r: Record, buf: &[u8], answer: &mut Text) -> Record {
    let s = start(state.sheet_of(buf));
    let refusal = s.answer.number();
    answer.clear();
    put_start(answer, refusal, state.length);
    state.opened_refused(refusal);
    state.started = true;
    state.layout = None;
    state.refusal = 0;
    state.tally = Tally {
        fired: 0,
        undone: 0,
        refused: 0,
    };
    let kept = state.kept;
    state.kept = false;
    if kept { r } else { s.session }
}

// A command, by the customer's call; the record after it.
fn order_line(
    line: Line<'_>,
    state: &mut State<'_>,
    r: Record,
    buf: &[u8],
    answer: &mut Text,
) -> Record {
    let Some(order) = command_of(line.form, line.bytes()) else {
        state.bad_bytes();
        return r;
    };
    let done = command_with(r, state.sheet_of(buf), order.bytes(), state.tally);
    let o = done.outcome;
    answer.clear();
    put_heard(answer, word_of(o.answer), value_of(o.answer, o.key));
    state.opened();
    state.tally = done.tally;
    state.asked = Some(order);
    state.serial = o.key.0;
    state.refusal = match o.answer {
        Answer::Refused(n) => n,
        _ => 0,
    };
    hold_refused(state, r, o.session);
    o.session
}

// A question.
fn ask(line: Line<'_>, state: &mut State<'_>, r: Record, buf: &[u8], answer: &mut Text) {
    answer.clear();
    match line.form {
        Form::WayBack => way_line(line.bytes(), state, r, buf, answer),
        Form::Each => each_line(line.bytes(), state, r, buf, answer),
        form => {
            put_question(line.bytes(), form, state, r, buf, answer);
            state.opened();
        }
    }
}

// One line of a script; the record behind it.
fn take_line(
    line: Line<'_>,
    state: &mut State<'_>,
    r: Record,
    sheet: &mut [u8],
    answer: &mut Text,
) -> Record
    requires { 65536 ≤ length sheet.old }
{
    match enter_line(line, state, sheet, answer) {
        Some(Left::Begin) => start_session(state, r, sheet, answer),
        Some(Left::Command) => order_line(line, state, r, sheet, answer),
        Some(Left::HandIn(from)) => {
            hand_in(between(line.text, from, line.at), state, r, sheet, answer)
        }
        Some(Left::Change) => alter_line(line.bytes(), state, r, sheet),
        Some(Left::Ask) => {
            ask(line, state, r, sheet, answer);
            r
        }
        None => r,
    }
}

// All lines, to the end of the text.
fn take_lines(text: &[u8], state: &mut State<'_>, sheet: &mut [u8], answer: &mut Text)
    requires { 65536 ≤ length sheet.old }
{
    let mut r = zeros();
    let mut at = 0;
    while at < text.len() {
        let to = line_end(text, at);
        r = take_line(Line::new(text, at, to), state, r, sheet, answer);
        if text.len() <= to {
            return;
        }
        at = to + 1;
    }
}

// A whole script: what it prints is printed, its totals last. Answers whether all of it was written. A sheet with no `session` behind it is read
// too, so that its first mistake is said. A block that was not handed in is one.
pub fn run_script(name: &[u8], text: &[u8], sheet: &mut [u8], answer: &mut [u8]) -> bool
    requires { 65536 ≤ length sheet.old }
{
    let mut state = State::new(name);
    let mut said = Text::new(answer);
    take_lines(text, &mut state, sheet, &mut said);
    state.tell(sheet, &said);
    if state.reading {
        read_lines(text, text.len(), &mut state, sheet);
    } else {
        give_up(&mut state);
    }
    let written = print_total(
        name,
        state.answers,
        state.expected,
        state.differences,
        state.mistakes,
    );
    state.wrote(written)
}
