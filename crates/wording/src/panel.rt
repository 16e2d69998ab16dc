// Questions about what can come off (document 02, T-06): the lamp of a serial, the serials whose lamp is lit, each part's last mover; how far
// one firing spreads (T-08); the listing of the steps (T-09). The lamps, the spread and the listing are the customer's calls.
use crate::answer::{put_begin, put_listed};
use crate::put::Text;
use firings::Firings;
use lamps::Lamps;
use net::{Key, MAX_BASES};
use questions::{can_undo, lamps, listing, spread};
use session::Record;

// `lamp yes` or `lamp no`.
pub fn put_lamp(out: &mut Text, r: Record, sheet: &[u8], key: u16) {
    out.say(if can_undo(r, sheet, Key(key)) {
        "lamp yes"
    } else {
        "lamp no"
    });
}

// `lamps` and the serials whose lamp is lit, or `refused N`. There is a lamp for each live firing, and none where it is refused: any other
// number of lamps is written behind them.
fn put_shown(out: &mut Text, f: &Firings, l: &Lamps) {
    let refusal = l.answer.number();
    put_begin(out, refusal, "lamps");
    for (&key, &lit) in f.keys.iter().zip(l.lit.iter()) {
        if lit {
            out.put_item(key);
        }
    }
    let wanted = if refusal == 0 { f.live } else { 0 };
    if l.count != wanted {
        out.put_item(l.count);
    }
}

// The same of a record.
pub fn put_lamps(out: &mut Text, r: Record, sheet: &[u8]) {
    put_shown(out, &r.firings, &lamps(r, sheet));
}

// `movers` and for each of the first n parts the serial of the last live firing that moved it, 0 where none did.
pub fn put_movers(out: &mut Text, movers: &[u16; MAX_BASES], n: usize) {
    out.put_text(b"movers");
    for (p, &serial) in movers.iter().enumerate() {
        put_listed(out, p < n, usize::from(serial));
    }
}

// `spread` and the parts moved by the firing of a serial or by one that depends on it; or `refused N`, which has none.
pub fn put_spread(out: &mut Text, r: Record, sheet: &[u8], key: u16) {
    let told = spread(r, sheet, Key(key));
    put_begin(out, told.answer.number(), "spread");
    for (p, &reached) in told.parts.iter().enumerate() {
        if reached {
            out.put_item(p);
        }
    }
}

// `listing` and the steps of the live firings in the order of the call; or `refused N`, which has none.
pub fn put_listing(out: &mut Text, r: Record, sheet: &[u8]) {
    let l = listing(r, sheet);
    put_begin(out, l.answer.number(), "listing");
    for (i, step) in l.transitions.iter().enumerate() {
        put_listed(out, i < l.count, usize::from(step.0));
    }
}
