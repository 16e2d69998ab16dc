// What a generated sheet is like: its counts, how its arcs go, and how often entries and bonds occur, of 16. From these and
// a seed it follows which base is an entry of which transition, its places, and which bonds there are.
use crate::random::{below, falls, mixed, over};
use oracle::sets::get;

// How the entries of a transition go: each has places of its own; they come from one place and go to several; they go together; they
// go together around a ring of places; the same, each transition for two bases of its own group; every other transition takes its
// entries from place 0 to another place, and the one after it takes the same entries back; the same, but some of them go to other
// places than back; the same, each there and back for two bases of its own group.
#[derive(Clone, Copy, PartialEq, Eq)]
pub enum Route {
    Own,
    Fork,
    Together,
    Ring,
    Groups,
    Shuttle,
    Parting,
    Pairs,
}

impl From<u64> for Route {
    fn from(number: u64) -> Route {
        match number {
            0 => Route::Own,
            1 => Route::Fork,
            2 => Route::Together,
            3 => Route::Ring,
            4 => Route::Groups,
            5 => Route::Shuttle,
            7 => Route::Pairs,
            _ => Route::Parting,
        }
    }
}

impl Route {
    // Whether every other transition takes back what the one before it took.
    fn goes_back(self) -> bool {
        matches!(self, Route::Shuttle | Route::Parting | Route::Pairs)
    }

    // Whether some entries go to other places than back.
    fn parts(self) -> bool {
        matches!(self, Route::Parting | Route::Pairs)
    }

    // Whether each transition is for two bases of its own group.
    fn groups(self) -> bool {
        matches!(self, Route::Groups | Route::Pairs)
    }
}

#[derive(Clone, Copy)]
pub struct Plan {
    pub places: u64,
    pub bases: u64,
    pub transitions: u64,
    pub route: Route,
    pub entries: u64,
    pub start: u64,
    pub incoming: u64,
    pub outgoing: u64,
}

// The plan of a row of numbers: its numbers 7 to 14.
pub fn plan_of(row: &[u64]) -> Plan {
    Plan {
        places: get(row, 7),
        bases: get(row, 8),
        transitions: get(row, 9),
        route: get(row, 10).into(),
        entries: get(row, 11),
        start: get(row, 12),
        incoming: get(row, 13),
        outgoing: get(row, 14),
    }
}

// Counts by lot, up to those of the plan; every eighth seed has the plan's own.
pub fn varied(p: Plan, seed: u64) -> Plan {
    if seed % 8 == 0 {
        return p;
    }
    Plan {
        places: below(mixed(seed, 0, 0, 7), p.places) % 64 + 1,
        bases: below(mixed(seed, 1, 0, 7), p.bases) % 64 + 1,
        transitions: below(mixed(seed, 2, 0, 7), p.transitions) % 64 + 1,
        ..p
    }
}

// Of which bonds: those of the start, of a transition's in-bonds, of its out-bonds.
#[derive(Clone, Copy)]
pub enum Bonds {
    Start,
    In(u64),
    Out(u64),
}

// All of 16: how many of 16 in-bonds a transition breaks that breaks all.
const ALL: u64 = 16;

// A plan, and the seed by which the rest is drawn.
#[derive(Clone, Copy)]
pub struct Draft {
    pub plan: Plan,
    pub seed: u64,
}

impl Draft {
    fn lot(self, a: u64, b: u64, c: u64) -> u64 {
        mixed(self.seed, a, b, c)
    }

    fn place(self, x: u64) -> u64 {
        below(x, self.plan.places)
    }

    // Whether base b is an entry of transition t: by lot, and one base always.
    pub fn enters(self, t: u64, b: u64) -> bool {
        let p = self.plan;
        let k = if p.route.goes_back() { t / 2 } else { t };
        if p.route.groups() {
            b / 2 == below(k, p.bases / 2)
        } else {
            b == below(k, p.bases) || falls(self.lot(k, b, 1), p.entries)
        }
    }

    // Where transition t begins on the ring.
    fn turn(self, t: u64) -> u64 {
        match self.plan.route {
            Route::Groups => over(t, self.plan.bases / 2),
            _ => t,
        }
    }

    // The place that the entries of a shuttle are at before transition t, where that is even, or after it.
    fn stop(self, t: u64, before: bool) -> u64 {
        if (t % 2 == 0) == before {
            0
        } else {
            self.place(self.lot(t / 2, 0, 2))
        }
    }

    // Where a way back that parts its entries takes a base: of 4, one goes to any place, three to 0.
    fn part_stop(self, x: u64) -> u64 {
        if x % 4 == 0 { self.place(x / 4) } else { 0 }
    }

    // The in-place and the out-place of base b in transition t.
    pub fn from_of(self, t: u64, b: u64) -> u64 {
        match self.plan.route {
            Route::Own => self.place(self.lot(t, b, 2)),
            Route::Fork | Route::Together => self.place(self.lot(t, 0, 2)),
            Route::Ring | Route::Groups => self.place(self.turn(t)),
            _ => self.stop(t, true),
        }
    }

    pub fn to_of(self, t: u64, b: u64) -> u64 {
        match self.plan.route {
            Route::Own | Route::Fork => self.place(self.lot(t, b, 3)),
            Route::Together => self.place(self.lot(t, 0, 3)),
            Route::Ring | Route::Groups => self.place(self.turn(t) % 64 + 1),
            Route::Parting | Route::Pairs if t % 2 == 1 => self.part_stop(self.lot(t, b, 3)),
            _ => self.stop(t, false),
        }
    }

    // Where base b starts: by lot where the entries have places of their own or go together, else at 0.
    pub fn start_of(self, b: u64) -> u64 {
        match self.plan.route {
            Route::Own | Route::Together => self.place(self.lot(b, 0, 4)),
            _ => 0,
        }
    }

    fn starts_bonded(self, a: u64, b: u64) -> bool {
        self.start_of(a) == self.start_of(b) && falls(self.lot(a, b, 5), self.plan.start)
    }

    // Whether the bond a-b falls among the out-bonds of transition t that are no in-bonds.
    fn adds(self, t: u64, a: u64, b: u64) -> bool {
        falls(self.lot(t, a, b % 64 + 200), self.plan.outgoing)
    }

    // How many of 16 in-bonds transition t breaks (document 02, T-07): of five transitions one breaks all, one about half, the others
    // none. Where some go elsewhere than back, each breaks at least about half.
    fn breaking(self, t: u64) -> u64 {
        match self.lot(t, 0, 8) % 5 {
            0 => ALL,
            1 => 8,
            _ => if self.plan.route.parts() { 8 } else { 0 },
        }
    }

    // Whether two entries have one out-place.
    fn go_together(self, t: u64, a: u64, b: u64) -> bool {
        self.to_of(t, a) == self.to_of(t, b)
    }

    // Whether transition t breaks the bond a-b where that is an in-bond.
    fn breaks(self, t: u64, a: u64, b: u64) -> bool {
        !self.go_together(t, a, b) || falls(self.lot(t, a, b % 64 + 300), self.breaking(t))
    }

    // Whether the bond a-b is drawn as an in-bond of transition t: on a shuttle's way back, of those that the way out adds, and all of
    // them where all break, so that both can fire again.
    fn drawn(self, t: u64, a: u64, b: u64) -> bool {
        let lot = falls(self.lot(t, a, b % 64 + 100), self.plan.incoming);
        if self.plan.route.goes_back() {
            t % 2 == 1 && (lot || self.breaking(t) == ALL) && self.adds(t - 1, a, b)
        } else {
            lot
        }
    }

    // Whether the bond a-b of two entries is an in-bond of transition t: they have one in-place, and one out-place too where it keeps
    // its bonds.
    fn comes(self, t: u64, a: u64, b: u64) -> bool {
        self.from_of(t, a) == self.from_of(t, b)
            && (self.go_together(t, a, b) || self.breaking(t) != 0)
            && self.drawn(t, a, b)
    }

    // Whether the bond a-b of two entries is an out-bond: an in-bond that is kept, or one that is added.
    fn leaves(self, t: u64, a: u64, b: u64) -> bool {
        if self.comes(t, a, b) {
            !self.breaks(t, a, b)
        } else {
            self.go_together(t, a, b) && self.adds(t, a, b)
        }
    }

    fn both_enter(self, t: u64, a: u64, b: u64) -> bool {
        self.enters(t, a) && self.enters(t, b)
    }

    // Whether the bond a-b is among these.
    pub fn bonded(self, bonds: Bonds, a: u64, b: u64) -> bool {
        match bonds {
            Bonds::Start => self.starts_bonded(a, b),
            Bonds::In(t) => self.both_enter(t, a, b) && self.comes(t, a, b),
            Bonds::Out(t) => self.both_enter(t, a, b) && self.leaves(t, a, b),
        }
    }
}
