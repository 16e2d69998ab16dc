// A record, how many commands led to it, and whether each was answered as expected.
// After one that was answered otherwise no more are given.
use case_records::heard::{begun, commanded};
use generated::drawn::undo_bytes;
use oracle::{UNDONE, reply};
use session::Record;

#[derive(Clone, Copy)]
pub struct Led {
    pub session: Record,
    pub count: u64,
    pub holds: bool,
}

pub fn led_to(r: Record) -> Led {
    Led {
        session: r,
        count: 0,
        holds: true,
    }
}

// A command more, and the answer that is expected.
pub fn go_on(p: Led, sheet: &[u8], bytes: &[u8], reply: u64) -> Led {
    if !p.holds {
        return p;
    }
    let heard = commanded(p.session, sheet, bytes, begun(0));
    Led {
        session: heard.session,
        count: p.count % 65536 + 1,
        holds: heard.said == reply,
    }
}

// A firing is taken back by its serial.
pub fn take_back(p: Led, sheet: &[u8], key: u64) -> Led {
    go_on(p, sheet, &undo_bytes(key), reply(UNDONE, key))
}
