// Rows by letters, each a command of a step that can always fire, as step 2 of sheet B is:
//   f fires the step           r raises the highest live serial to 65,534 in both engines, and fires
//   u takes back the last      t raises it to 65,535, and fires
//   a takes back 65,534        b takes back 65,535
// The highest serial given is raised with it, also where nothing is live. By lot serials are raised before one command.
use ask_tools::altered::{with_given, with_key};
use case_tools::counts::SEED;
use generated::drawn::made;
use generated::rows::{RAISE, letter_at, noted};
use oracle::sets::get;
use session::Record;

// The letter of the next command.
fn next_letter(w: &[u64]) -> Option<u8> {
    match (letter_at(w, noted(w) + 1) % 256) as u8 {
        0 => None,
        letter => Some(letter),
    }
}

// What serials are raised to before the next command.
pub fn raise_at(c: &[u64], w: &[u64]) -> Option<u16> {
    match next_letter(w) {
        Some(b'r') => Some(65534),
        Some(b't') => Some(65535),
        _ if noted(w) + 1 == get(w, RAISE) => Some(65530 + (get(c, SEED) % 6) as u16),
        _ => None,
    }
}

// The next command, where it has a letter.
pub fn letter_command(w: &[u64]) -> Option<u64> {
    let command = match next_letter(w)? {
        b'u' => made(2, 0, 3),
        b'a' => made(3, 65534, 3),
        b'b' => made(3, 65535, 3),
        _ => made(1, 2, 3),
    };
    Some(command)
}

// The record with a higher key in the last live firing, if there is one, and a highest given that is not below it: it stays sound.
// The low two bytes count, and 0 raises nothing.
pub fn raised(r: Record, raise: u64) -> Record {
    let key = (raise % 65536) as u16;
    if key == 0 {
        return r;
    }
    let last = r.given.0.max(key);
    let live = r.firings.live;
    if live == 0 {
        with_given(r, last)
    } else {
        with_given(with_key(r, live % 256 + 255, key), last)
    }
}
