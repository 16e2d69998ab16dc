// `each`, a question for tests: what `undo last` is answered on the record in hand with one thing altered, in each way from a number to
// another, each alone. The record in hand and the tally stay as they are.
use crate::alter::{Thing, altered, with_table};
use case_records::heard::{begun, commanded};
use case_records::same_record;
use script_lines::form::{number, thing_in};
use script_lines::state::State;
use session::Record;
use wording::answer::put_heard;
use wording::put::Text;

// What is altered. The third number and the fourth are what a place or a coupling is altered to, or the third is the firing whose step or
// moved part is altered.
const THINGS: [(&[u8], Thing); 4] = [
    (b"each place 63 to 63 at 255", Thing::Place),
    (b"each coupling 2015 to 2015 is 255 255", Thing::Coupling),
    (b"each step 255 to 255 of 255", Thing::Step),
    (b"each moved 63 to 63 of 255", Thing::Moved),
];

// The record with the alteration of number i. Where a firing is altered the table of last movers is made anew.
fn altered_at(r: Record, thing: Thing, i: u16, x: u16, y: u16) -> Record {
    match thing {
        Thing::Step | Thing::Moved => with_table(altered(r, thing, x, i, 0)),
        _ => altered(r, thing, i, x, y),
    }
}

// What `undo last` is answered, as one number (case_records, heard). A refused one has to have serial 0 and the very record.
fn answer_on(r: Record, sheet: &[u8]) -> Option<u64> {
    let heard = commanded(r, sheet, b"\x02\x00\x00", begun(0));
    let said = heard.said;
    (said < 131072 || heard.key.0 == 0 && same_record(r, heard.session)).then_some(said)
}

// What a line with `each` names: a thing, from a number to another, and two numbers more.
#[derive(Clone, Copy)]
struct Range {
    thing: Thing,
    from: u16,
    to: u16,
    x: u16,
    y: u16,
}

// The answer that all of them have.
fn answer_of_all(r: Record, sheet: &[u8], e: Range) -> Option<u64> {
    let said = answer_on(altered_at(r, e.thing, e.from, e.x, e.y), sheet)?;
    for i in e.from..e.to {
        let next = altered_at(r, e.thing, i + 1, e.x, e.y);
        if answer_on(next, sheet) != Some(said) {
            return None;
        }
    }
    Some(said)
}

// A line that begins with `each`.
pub fn each_line(line: &[u8], state: &mut State<'_>, r: Record, buf: &[u8], answer: &mut Text) {
    let Some(thing) = thing_in(line, &THINGS) else {
        state.mistake(
            b"`each` and `place P to Q at X`, `coupling I to J is P-Q`, `step K to L of I` or `moved P to Q of I`",
        );
        return;
    };
    let range = Range {
        thing,
        from: number(line, 0),
        to: number(line, 1),
        x: number(line, 2),
        y: number(line, 3),
    };
    match answer_of_all(r, state.sheet_of(buf), range) {
        Some(said) => put_heard(answer, (said / 65536 % 256) as u8, (said % 65536) as u16),
        None => answer.put_text(b"not answered alike"),
    }
    state.opened();
}
