// The kinds of rows that have sessions, and the question of a row's kind.
// A new request has a kind, and a branch.
use ask_session::Together;
use ask_tools::both::Both;
use generated::rows::KIND;
use oracle::sets::get;

// What is asked in a session: nothing; its commands together; the four questions of document 02. Any other kind asks nothing.
#[derive(Clone, Copy, PartialEq, Eq)]
pub enum Kind {
    Session,
    Together(Together),
    Lamps,
    Spread,
    Listing,
    Way,
    Other,
}

pub fn kind_of(w: &[u64]) -> Kind {
    match get(w, KIND) {
        1 => Kind::Session,
        2 => Kind::Together(Together::Block),
        3 => Kind::Together(Together::Input),
        4 => Kind::Lamps,
        5 => Kind::Spread,
        6 => Kind::Listing,
        7 => Kind::Way,
        _ => Kind::Other,
    }
}

// Asks a question in both ways; what differs is judged. Where the call is to be refused by a number, answers what differs; p is then a part,
// for calls that name one, a serial or a layout.
pub fn ask(c: &mut [u64], w: &[u64], b: &Both, p: usize, refusal: Option<u64>) -> u64 {
    match (kind_of(w), refusal) {
        (Kind::Lamps, _) => ask_lamps::ask(c, b, refusal),
        (Kind::Spread, _) => ask_spread::ask(c, b, p, refusal),
        (Kind::Listing, _) => ask_listing::ask(c, b, refusal),
        (Kind::Way, Some(number)) => ask_way::refused(b, p, number),
        (Kind::Way, None) => {
            ask_way::ask(c, w, b);
            0
        }
        (Kind::Together(how), None) => {
            ask_session::ask(c, w, b, how);
            0
        }
        _ => 0,
    }
}
