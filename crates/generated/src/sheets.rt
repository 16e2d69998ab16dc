// Writes the sheet of a plan and a seed into a lent buffer (document 01, the sheet). Stores past the end do nothing: a
// sheet that does not fit is refused by the engine, and the program counts that.
use crate::plan::{Bonds, Draft, Plan};
use case_tools::bytes::put;

// Where the next byte goes at most.
const LAST: usize = 40000;

#[derive(Drop)]
struct Writer<'a> {
    buf: &'a mut [u8],
    at: usize,
    draft: Draft,
}

impl Writer<'_> {
    // A byte; the next one goes behind it.
    fn emit(&mut self, value: u64) {
        put(self.buf, self.at, value);
        if self.at < LAST {
            self.at += 1;
        }
    }

    // How many bytes were written from a position on.
    fn length_from(&self, from: usize) -> u64 {
        self.at.saturating_sub(from) as u64
    }

    // Pair k: where a stretch begins that ends here, and its length, two bytes each, the low one first.
    fn put_pair(&mut self, k: u64, from: usize) {
        let at = (4 + 4 * (k % 66)) as usize;
        let start = from as u64;
        let length = self.length_from(from);
        put(self.buf, at, start);
        put(self.buf, at + 1, start / 256);
        put(self.buf, at + 2, length);
        put(self.buf, at + 3, length / 256);
    }

    fn emit_entry(&mut self, t: u64, b: u64) {
        if self.draft.enters(t, b) {
            self.emit(b);
            self.emit(self.draft.from_of(t, b));
            self.emit(self.draft.to_of(t, b));
        }
    }

    // The count of entries, and the entries.
    fn emit_entries(&mut self, t: u64) {
        let from = self.at;
        self.emit(0);
        for b in 0..self.draft.plan.bases {
            self.emit_entry(t, b);
        }
        let length = self.length_from(from);
        put(self.buf, from, length / 3);
    }

    fn emit_bond(&mut self, bonds: Bonds, a: u64, b: u64) {
        if self.draft.bonded(bonds, a, b) {
            self.emit(a);
            self.emit(b);
        }
    }

    // The lower base of a bond comes first.
    fn emit_bonds(&mut self, bonds: Bonds) {
        let n = self.draft.plan.bases.min(64);
        for a in 0..n {
            for b in a + 1..n {
                self.emit_bond(bonds, a, b);
            }
        }
    }

    // The count of in-bonds or of out-bonds, and the bonds.
    fn emit_counted(&mut self, bonds: Bonds) {
        let count = self.at;
        self.emit(0);
        let from = self.at;
        self.emit_bonds(bonds);
        let length = self.length_from(from);
        put(self.buf, count, length / 2);
    }

    fn emit_transition(&mut self, t: u64) {
        let from = self.at;
        self.emit_entries(t);
        self.emit_counted(Bonds::In(t));
        self.emit_counted(Bonds::Out(t));
        self.put_pair(t % 64 + 2, from);
    }

    fn emit_places(&mut self) {
        let from = self.at;
        for b in 0..self.draft.plan.bases {
            self.emit(self.draft.start_of(b));
        }
        self.put_pair(0, from);
    }

    fn emit_start(&mut self) {
        let from = self.at;
        self.emit_bonds(Bonds::Start);
        self.put_pair(1, from);
    }
}

// The whole sheet; answers its length.
pub fn write_sheet(buf: &mut [u8], p: Plan, seed: u64) -> usize {
    put(buf, 0, 1);
    put(buf, 1, p.places);
    put(buf, 2, p.bases);
    put(buf, 3, p.transitions);
    let mut writer = Writer {
        buf,
        at: (12 + 4 * (p.transitions % 65)) as usize,
        draft: Draft { plan: p, seed },
    };
    writer.emit_places();
    writer.emit_start();
    for t in 0..p.transitions {
        writer.emit_transition(t);
    }
    writer.at
}
