// Pairs of sessions on one sheet. Swaps of neighbours that moved no common part leave the listing as it is. For any other session with few
// live firings it is decided whether such swaps turn the one's firings into the other's (orders): just then the listings are equal.
use crate::again::run_again;
use crate::orders::turns_into;
use crate::told::{OF_LINES, first_other, judged_lists, told_differs, told_of};
use case_tools::counts::{more, unless};
use generated::random::{below, mixed};
use least_sets::lines::{COUNT, WORDS, count_of, live_lines, moved_at, set_line, share, step_at};
use oracle::sets::put;

// The most firings that are swapped by any swaps.
const SIX: usize = 6;

// A session's live firings, and the listing that was told of them.
#[derive(Clone, Copy)]
struct Listed<'a> {
    live: &'a [u64],
    told: &'a [u64],
}

// Firing i and the next swap, where there are two and, unless any may, they moved no common part.
fn swap_lines(g: &mut [u64], x: u64, any: bool) {
    let n = count_of(g);
    let i = (below(x, n as u64) % 256) as usize;
    if n <= i + 1 || (!any && share(g, i, i + 1)) {
        return;
    }
    let (step, moved) = (step_at(g, i), moved_at(g, i));
    let (other, its) = (step_at(g, i + 1), moved_at(g, i + 1));
    set_line(g, i, other, its);
    set_line(g, i + 1, step, moved);
}

// Some swaps by lot; of four lots one leaves out the last firing where any are swapped.
fn vary(g: &mut [u64], lot: u64, any: bool) {
    for k in 0..24 {
        swap_lines(g, mixed(lot, k, 1, 9), any);
    }
    let n = count_of(g);
    if any && lot % 4 == 0 && n != 0 {
        set_line(g, n - 1, 0, 0);
        put(g, COUNT, n as u64 - 1);
    }
}

// Pairs in another order by swaps of neighbours without a common part: 17. By any swaps: 18 turned into one another, in another order; 19 not
// turned; 20 not, though as many firings are live.
fn count_pair(c: &mut [u64], h: &[u64], live: &[u64], any: bool, turns: bool) {
    let other = first_other(live, h, OF_LINES).is_some();
    more(c, 17, 1, !any && other);
    more(c, 18, 1, any && turns && other);
    more(c, 19, 1, !turns);
    more(c, 20, 1, !turns && count_of(live) == count_of(h));
}

// The live firings and the listing of both, and the order that was fired, which is live where no others were swapped. Then such swaps turn
// the one's firings into the other's; just where they do the listings are equal.
fn judged_pair(c: &mut [u64], one: Listed, other: Listed, g: &[u64], any: bool) {
    let turns = !any || turns_into(one.live, other.live);
    let fired = any || first_other(other.live, g, OF_LINES).is_none();
    let equal = told_differs(other.told, one.told) == 0;
    count_pair(c, one.live, other.live, any, turns);
    let what = unless(equal == turns, 256) | unless(fired, 32);
    judged_lists(c, other.told, one.told, what);
}

// The firings in another order. Where any were swapped some may be refused; else all are fired, with the same moved parts.
fn pair(c: &mut [u64], sheet: &[u8], h: [u64; WORDS], told: &[u64], lot: u64, any: bool) {
    let mut g = h;
    let mut s = oracle::zeros();
    vary(&mut g, lot, any);
    let end = run_again(c, sheet, &g, Some(lot), &mut s);
    let one = Listed { live: &h, told };
    let other = Listed {
        live: &live_lines(&s),
        told: &told_of(end, sheet),
    };
    judged_pair(c, one, other, &g, any);
}

// A pair by swaps of neighbours without a common part; and with few firings one by any swaps.
pub fn ask_pairs(c: &mut [u64], sheet: &[u8], h: [u64; WORDS], told: &[u64], lot: u64) {
    pair(c, sheet, h, told, lot, false);
    if count_of(&h) <= SIX {
        pair(c, sheet, h, told, lot, true);
    }
}
