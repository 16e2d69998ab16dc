// Questions at the desk and their answers: about the record, the last refusal, the sheet, the pages of live firings.
use crate::changed::{put_cut, put_with};
use format::base_count;
use script_lines::form::{Form, number};
use script_lines::state::State;
use session::Record;
use session_start::start;
use why::{Reason, why};
use wording::answer::{put_couplings, put_live, put_moved, put_step, put_tally, put_where};
use wording::pages::{put_page, put_row};
use wording::panel::{put_lamp, put_lamps, put_listing, put_movers, put_spread};
use wording::put::Text;
use wording::reason::put_reason;
use wording::refused::put_refused;

// The number that starting on a sheet is refused by.
pub fn refusal_of(sheet: &[u8]) -> u8 {
    start(sheet).answer.number()
}

// Why a block of so many bytes was refused by 26.
fn put_block_refused(answer: &mut Text, bytes: usize) {
    answer.put_count("the block has", bytes.saturating_add(2) / 3);
    answer.put_text(b" commands and 1000 are the most");
}

// Why the last command or block was refused; a refused sheet has its own reason.
fn put_why(state: &State<'_>, r: Record, sheet: &[u8], answer: &mut Text) {
    let n = refusal_of(sheet);
    if n != 0 {
        put_refused(answer, sheet, n);
        return;
    }
    match state.refusal {
        0 => put_reason(answer, Reason::Nothing),
        26 => put_block_refused(answer, state.block_bytes),
        _ => put_reason(answer, why(r, sheet, state.asked_bytes())),
    }
}

// The answer to a question; the sheet lies at the start of its buffer.
pub fn put_question(
    line: &[u8],
    form: Form,
    state: &State<'_>,
    r: Record,
    buf: &[u8],
    answer: &mut Text,
) {
    let sheet = state.sheet_of(buf);
    let k = number(line, 0);
    let parts = usize::from(base_count(sheet));
    match form {
        Form::With(n) => put_with(line, n, sheet, answer),
        Form::Cut(n) => put_cut(line, n, sheet, answer),
        Form::Tally => put_tally(answer, state.tally),
        Form::Why => put_why(state, r, sheet, answer),
        Form::Where => put_where(answer, &r.marking, parts),
        Form::Couplings => put_couplings(answer, &r.marking),
        Form::Live => put_live(answer, &r.firings),
        Form::Moved => put_moved(answer, &r.firings, k),
        Form::StepOf => put_step(answer, &r.firings, k),
        Form::Movers => put_movers(answer, &r.movers, parts),
        Form::Lamps => put_lamps(answer, r, sheet),
        Form::Lamp => put_lamp(answer, r, sheet, k),
        Form::Listing => put_listing(answer, r, sheet),
        Form::Spread => put_spread(answer, r, sheet, k),
        Form::Page => put_page(answer, r, sheet, k),
        Form::Row => put_row(answer, r, sheet, k, number(line, 1)),
        _ => {}
    }
}
