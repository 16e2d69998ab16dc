// Records in the programs of cases: commands by the customer's call (heard), and whether two records are the same in every entry,
// used or not. A refused command has to hand back the very record.
#![tactic(auto)]

pub mod heard;

use firings::Firings;
use marking::Marking;
use session::Record;

fn same_firings(a: &Firings, b: &Firings) -> bool {
    a.live == b.live && a.transitions == b.transitions && a.keys == b.keys && a.moved == b.moved
}

fn same_marking(a: &Marking, b: &Marking) -> bool {
    a.places == b.places && a.count == b.count && a.lo == b.lo && a.hi == b.hi
}

pub fn same_record(a: Record, b: Record) -> bool {
    same_marking(&a.marking, &b.marking)
        && same_firings(&a.firings, &b.firings)
        && a.movers == b.movers
        && a.given.0 == b.given.0
}
