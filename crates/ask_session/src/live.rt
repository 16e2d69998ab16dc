// Compares our record with the second engine's history: how many firings are live, each one's transition, key and moved bases in the order of
// keys, with every entry after them 0; the table of last movers; the highest key given.
use ask_tools::altered::with_firings;
use case_records::same_record;
use case_tools::counts::unless;
use firings::Firings;
use least_sets::lines::{count_of, key_at, live_lines, moved_at, step_at};
use net::MAX_LIVE;
use session::Record;

fn entries_differ(f: &Firings, h: &[u64]) -> u64 {
    let mut all = unless(f.live == count_of(h), 16);
    for i in 0..MAX_LIVE {
        let step = u64::from(f.transitions[i]) == step_at(h, i);
        let key = u64::from(f.keys[i]) == key_at(h, i);
        all |= unless(step && key, 16);
        all |= unless(f.moved[i] == moved_at(h, i), 32);
    }
    all
}

// The table of last movers is that of our firings.
pub fn live_differs(r: Record, s: &[u64]) -> u64 {
    let table = unless(same_record(r, with_firings(r, r.firings)), 64);
    let last = unless(u64::from(r.given.0) == oracle::given(s), 128);
    table | last | entries_differ(&r.firings, &live_lines(s))
}
