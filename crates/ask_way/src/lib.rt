// The way back to a wanted layout (document 02, T-04): for many layouts the answer that is expected is read off the table of all sets that
// the second engine took back (crate least_sets), and the question is asked (judge). What is counted of the sets: counts.
#![tactic(auto)]

mod counts;
mod judge;

use ask_tools::both::Both;
use case_tools::bytes::{byte, put};
use case_tools::counts::{SEED, judged};
use counts::count_set;
use generated::rows::{ALL, LAYOUTS, part};
use judge::{Expected, judge};
use least_sets::draws::lay_layout;
use least_sets::least::{lay_wanted, least_for, number_for};
use least_sets::table::{MOST, SETS, lay_table};
use oracle::sets::get;

// The sets of live firings, and the keys of these, the highest first.
#[derive(Clone, Copy)]
struct Sets<'a> {
    both: &'a Both<'a>,
    table: &'a [u64],
    keys: &'a [u64],
}

impl Sets<'_> {
    // Question j, for a layout with its least set.
    fn settle(&self, c: &mut [u64], layout: &[u8], j: u64) {
        let set = least_for(self.table, layout, 0, layout.len());
        count_set(c, self.table, layout, set);
        let number = number_for(self.table, layout, set);
        let mut wanted = [0u64; 256];
        let n = lay_wanted(&mut wanted, self.keys, set).min(256);
        let expected = Expected {
            refusal: if number == 0 { None } else { Some(number) },
            keys: &wanted[..n],
        };
        let (ours, what) = judge(self.both.record, self.both.sheet, layout, expected);
        judged(c, j, ours, number, what);
    }

    // Layout j, of all or by lot.
    fn question(&self, c: &mut [u64], j: u64, all: bool) {
        let sheet = self.both.sheet;
        let mut buf = [0u8; 64];
        lay_layout(&mut buf, sheet, self.table, get(c, SEED), j, all);
        self.settle(c, part(&buf, 0, usize::from(byte(sheet, 2))), j);
    }
}

// So many layouts as the row says. At most ten firings are live.
pub fn ask(c: &mut [u64], w: &[u64], b: &Both) {
    let mut keys = [0u64; MOST];
    let mut table = [0u64; SETS];
    let n = lay_table(&mut table, &mut keys, b.sheet, b.state);
    let sets = Sets {
        both: b,
        table: &table[..n],
        keys: &keys,
    };
    for j in 0..get(w, LAYOUTS) {
        sets.question(c, j, get(w, ALL) != 0);
    }
}

// What differs where the call is refused by a number: the layout wants part p at place 0.
pub fn refused(b: &Both, p: usize, number: u64) -> u64 {
    let mut buf = [255u8; 64];
    put(&mut buf, p, 0);
    let layout = part(&buf, 0, usize::from(byte(b.sheet, 2)));
    let expected = Expected {
        refusal: Some(number),
        keys: &[],
    };
    let (_, what) = judge(b.record, b.sheet, layout, expected);
    what
}
