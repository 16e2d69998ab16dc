// `alter`, a line for tests: one thing of the record in hand, of the tally or of the sheet that is handed in is another for what comes next.
// Nothing is looked at, so the record may be one that no session has.
use firings::Firings;
use movers::table::mark_back;
use net::{Key, MAX_BASES, MAX_LIVE};
use script_lines::form::{number, thing_in};
use script_lines::state::State;
use session::Record;
use session_start::start;
use tally::Tally;

// What is altered.
#[derive(Clone, Copy)]
pub enum Thing {
    // Beside the record: a byte of the sheet, its length, the tally, how many parts the layout of a way back is of, that the next
    // session keeps the record.
    Byte,
    Length,
    Tally,
    Layout,
    Kept,
    // All of the record; its table of last movers made anew of its live firings, an entry of it; the highest serial given.
    Zeros,
    Anew,
    Mover,
    Given,
    // Of the marking: a place, a coupling, how many couplings: as many as can be said, or any other number.
    Place,
    Coupling,
    MostCouplings,
    Couplings,
    // Of the live firings: the step of one, its serial, a part that it moved or did not, how many firings.
    Step,
    Serial,
    Moved,
    MostLive,
    Live,
}

const THINGS: [(&[u8], Thing); 18] = [
    (b"alter byte 65535 255", Thing::Byte),
    (b"alter length 65535", Thing::Length),
    (b"alter tally 65535 65535 65535", Thing::Tally),
    (b"alter layout 300", Thing::Layout),
    (b"alter sheet", Thing::Kept),
    (b"alter zeros", Thing::Zeros),
    (b"alter movers anew", Thing::Anew),
    (b"alter given 65535", Thing::Given),
    (b"alter mover 63 65535", Thing::Mover),
    (b"alter place 63 255", Thing::Place),
    (b"alter coupling 2015 255 255", Thing::Coupling),
    (b"alter couplings most", Thing::MostCouplings),
    (b"alter couplings 65535", Thing::Couplings),
    (b"alter step 255 255", Thing::Step),
    (b"alter serial 255 65535", Thing::Serial),
    (b"alter moved 255 63", Thing::Moved),
    (b"alter live most", Thing::MostLive),
    (b"alter live 65535", Thing::Live),
];

// The low byte of a number.
fn low(x: u16) -> u8 {
    (x % 256) as u8
}

// ---- the record

fn table_of(f: &Firings) -> [u16; MAX_BASES] {
    let mut table = [0; MAX_BASES];
    let live = f.live.min(MAX_LIVE);
    mark_back(&mut table, f, live, u64::MAX);
    table
}

// The table of last movers is that of the live firings.
pub fn with_table(r: Record) -> Record {
    let mut next = r;
    next.movers = table_of(&r.firings);
    next
}

// The record of no sheet.
pub fn zeros() -> Record {
    start(b"").session
}

// The record with one thing of it altered, by a line's three numbers. What is beside it changes nothing here.
pub fn altered(r: Record, thing: Thing, i: u16, x: u16, y: u16) -> Record {
    let mut next = r;
    let at = usize::from(i);
    match thing {
        Thing::Zeros => return zeros(),
        Thing::Anew => return with_table(r),
        Thing::Given => next.given = Key(i),
        Thing::Mover => next.movers[at % 64] = x,
        Thing::Place => next.marking.places[at % 64] = low(x),
        Thing::Coupling => {
            next.marking.lo[at % 2016] = low(x);
            next.marking.hi[at % 2016] = low(y);
        }
        Thing::MostCouplings => next.marking.count = usize::MAX,
        Thing::Couplings => next.marking.count = at,
        Thing::Step => next.firings.transitions[at % 256] = low(x),
        Thing::Serial => next.firings.keys[at % 256] = x,
        Thing::Moved => next.firings.moved[at % 256] ^= 1 << (x % 64),
        Thing::MostLive => next.firings.live = usize::MAX,
        Thing::Live => next.firings.live = at,
        _ => {}
    }
    next
}

// ---- the line

fn alter_byte(at: u16, byte: u8, state: &mut State<'_>, sheet: &mut [u8]) {
    state.altered = true;
    let i = usize::from(at);
    if i < sheet.len() {
        sheet[i] = byte;
    }
}

// A line that begins with `alter`; the record behind it.
pub fn alter_line(line: &[u8], state: &mut State<'_>, r: Record, sheet: &mut [u8]) -> Record {
    let Some(thing) = thing_in(line, &THINGS) else {
        state.mistake(
            b"`alter` and `place P X`, `coupling I P-Q`, `couplings N`, `step I K`, `serial I S`, `moved I P`, `live N`, `given S`, `mover P S`, `movers anew`, `zeros`, `tally F U R`, `byte AT BYTE`, `length N`, `layout N` or `sheet`",
        );
        return r;
    };
    let (a, b, c) = (number(line, 0), number(line, 1), number(line, 2));
    match thing {
        Thing::Byte => alter_byte(a, low(b), state, sheet),
        Thing::Length => {
            state.altered = true;
            state.length = state.length.min(usize::from(a));
        }
        Thing::Tally => {
            state.tally = Tally {
                fired: a,
                undone: b,
                refused: c,
            };
        }
        Thing::Layout => state.layout = Some(usize::from(a)),
        Thing::Kept => state.kept = true,
        _ => return altered(r, thing, a, b, c),
    }
    r
}
