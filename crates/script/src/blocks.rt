// Commands handed in together (document 02, T-02). The lines of a block are passed until `hand in`, which reads them again, joins
// their commands' bytes and hands them in by the customer's call; the answers come as two lists, a word and a value each.
use case_records::same_record;
use script_lines::command::{command_of, put_orders};
use script_lines::form::Form;
use script_lines::state::State;
use session::Record;
use session::block::block_with;
use wording::answer::put_heard;
use wording::put::Text;

// The most commands of a block, and room for one byte more than they have: what does not fit is refused by 26 without it.
const MOST: usize = 1000;

const ROOM: usize = 3001;

// ---- the lines

// `block`, which ends at a position of the text.
pub fn begin_block(state: &mut State<'_>, to: usize) {
    state.block = Some(to);
    state.block_bytes = 0;
}

// A command of the block: its bytes are counted.
pub fn pass_order(line: &[u8], form: Form, state: &mut State<'_>) {
    match command_of(form, line) {
        Some(order) => {
            state.block_bytes = state.block_bytes.saturating_add(order.bytes().len());
        }
        None => state.bad_bytes(),
    }
}

// `ran N` and the N answers, each behind a space.
fn put_ran(answer: &mut Text, n: usize, words: &[u8], values: &[u16]) {
    answer.put_count("ran", n);
    for (&word, &value) in words.iter().zip(values).take(n) {
        answer.put(b' ');
        put_heard(answer, word, value);
    }
}

// The customer's call on a block's bytes; the record after it.
fn run_block(
    state: &mut State<'_>,
    r: Record,
    block: &[u8],
    buf: &[u8],
    answer: &mut Text,
) -> Record {
    let mut words = [0; MOST];
    let mut values = [0; MOST];
    let sheet = state.sheet_of(buf);
    let done = block_with(r, sheet, block, state.tally, &mut words, &mut values);
    let refusal = done.outcome.answer.number();
    answer.clear();
    if refusal == 0 {
        put_ran(answer, done.outcome.count, &words, &values);
    } else {
        answer.put_refusal(refusal);
    }
    state.opened();
    state.tally = done.tally;
    state.block = None;
    state.refusal = refusal;
    state.serial = 0;
    done.outcome.session
}

// Behind a command or a block: where that was refused, the record is the very one before it, and no serial came.
pub fn hold_refused(state: &mut State<'_>, r: Record, next: Record) {
    if state.refusal != 0 && (state.serial != 0 || !same_record(r, next)) {
        state.left_changed();
    }
}

// `hand in`: the commands of a stretch of the text; the record behind them.
pub fn hand_in(
    lines: &[u8],
    state: &mut State<'_>,
    r: Record,
    buf: &[u8],
    answer: &mut Text,
) -> Record {
    let mut room = [0; ROOM];
    let mut block = Text::new(&mut room);
    put_orders(lines, &mut block);
    let next = run_block(state, r, block.bytes(), buf, answer);
    hold_refused(state, r, next);
    next
}

// A block that is not handed in: a mistake, and its commands are given up.
pub fn give_up(state: &mut State<'_>) {
    if state.block.is_some() {
        state.mistake(b"`hand in` behind the block's commands");
        state.block = None;
    }
}
