// Why a command was refused, in words (document 01, the turned-away list, 10 to 21). What a reason names was found by the
// crate why.
use crate::put::Text;
use std::fmt;
use std::fmt::{Display, Write};
use why::Reason;

// A reason as a phrase.
#[derive(Clone, Copy)]
struct Words(Reason);

impl Display for Words {
    fn fmt<W: Write>(&self, f: &mut fmt::Formatter<W>) -> fmt::Result {
        match self.0 {
            Reason::Nothing | Reason::Sheet => f.write_str("the last command was not refused"),
            Reason::Record => f.write_str("the record is not sound for this sheet"),
            Reason::Short => f.write_str("the command has fewer than 3 bytes"),
            Reason::Unreadable => f.write_str("the kind is not 1 2 or 3 or kind 2 has a number"),
            Reason::Steps(n) => write!(f, "the sheet has {n} steps from 0"),
            Reason::Away(e, place) => {
                let (part, from) = (e.base, e.from);
                write!(
                    f,
                    "part {part} is at {place} and the step takes it from {from}"
                )
            }
            Reason::Absent(b) => {
                let (lo, hi) = (b.lo, b.hi);
                write!(f, "coupling {lo}-{hi} is not there")
            }
            Reason::Present(b) => {
                let (lo, hi) = (b.lo, b.hi);
                write!(f, "coupling {lo}-{hi} is there already")
            }
            Reason::Torn(e, d) => {
                let (a, b) = (e.base, d.base);
                let (x, y) = (e.to, d.to);
                write!(
                    f,
                    "parts {a} and {b} hang together and would go to {x} and {y}"
                )
            }
            Reason::Full => f.write_str("256 firings are live"),
            Reason::LastKey => f.write_str("the highest serial given is 65535"),
            Reason::NoneLive => f.write_str("no firing is live"),
            Reason::NotLive(k) => {
                let serial = k.0;
                write!(f, "firing {serial} is not live")
            }
            Reason::Later(k, part) => {
                let serial = k.0;
                write!(f, "firing {serial} came later and moved part {part} too")
            }
        }
    }
}

pub fn put_reason(out: &mut Text, r: Reason) {
    out.say(Words(r));
}
