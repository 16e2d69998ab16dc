// One question for the way back (document 02, T-04), asked by the customer's call and held against the answer that is expected: the
// number, the count and every entry of the keys. Then the way is gone: each key is given as a command of kind 3, which is to take back
// that firing, and in the end every part that the layout names is to be at its place. What differs is a sum: 1 the
// number, 2 the count, 4 the keys, 8 a command, 16 a place.
use ask_tools::led::{Led, led_to, take_back};
use case_tools::counts::unless;
use net::{Key, MAX_BASES, MAX_LIVE};
use oracle::sets::get;
use questions::way_back;
use session::Record;
use way_back::WayBack;

// The answer that is expected: the number of the refusal, if it is one, and the keys.
#[derive(Clone, Copy)]
pub struct Expected<'a> {
    pub refusal: Option<u64>,
    pub keys: &'a [u64],
}

// The keys are taken back, in their order.
fn gone(r: Record, sheet: &[u8], keys: &[u64]) -> Led {
    keys.iter()
        .fold(led_to(r), |p, &key| take_back(p, sheet, key))
}

// Whether each part that the layout names is at its place.
fn all_there(places: [u8; MAX_BASES], layout: &[u8]) -> bool {
    layout
        .iter()
        .zip(places.iter())
        .all(|(&wanted, &place)| wanted == 255 || place == wanted)
}

// What differs on the way.
fn going_differs(r: Record, sheet: &[u8], layout: &[u8], keys: &[u64]) -> u64 {
    let p = gone(r, sheet, keys);
    unless(p.holds, 8) | unless(all_there(p.session.marking.places, layout), 16)
}

// Whether these are our keys; the entries after them hold 0.
fn same_keys(ours: [Key; MAX_LIVE], keys: &[u64]) -> bool {
    ours.iter()
        .enumerate()
        .all(|(i, k)| u64::from(k.0) == get(keys, i))
}

fn way_differs(w: WayBack, expected: Expected) -> u64 {
    let number = u64::from(w.answer.number());
    let answer = unless(number == expected.refusal.unwrap_or(0), 1);
    let count = unless(w.count == expected.keys.len(), 2);
    answer | count | unless(same_keys(w.keys, expected.keys), 4)
}

// Our number, and what differs on a record. Nothing is gone where a refusal is expected.
pub fn judge(r: Record, sheet: &[u8], layout: &[u8], expected: Expected) -> (u64, u64) {
    let w = way_back(r, sheet, layout);
    let way = way_differs(w, expected);
    let going = match expected.refusal {
        Some(_) => 0,
        None => going_differs(r, sheet, layout, expected.keys),
    };
    (u64::from(w.answer.number()), way | going)
}
