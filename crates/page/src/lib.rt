// Live firings on a ruled page (document 02, T-01): the list that is handed in, read into plain numbers, and the page of it.
// The list is gone through once; what a page says of a firing are plain numbers.
#![tactic(auto)]

ghost use Rattle.std.specs.Prelude.{◌≡◌, [], ◌∷◌, ◌++◌, ltb, take};
ghost use Rattle.net.specs.Tests.{pick};
ghost use Rattle.page_lines.specs.Page.{rows_in};
ghost use Rattle.page_lines.specs.Answers.{Laid};
ghost use Rattle.live_list.specs.List.{no_firing};
ghost use Rattle.page.specs.Rows.{no_rows, with_firing, lent_firings, Paged};

use firings::Firing;
use net::{Key, MAX_LIVE, Verdict};
use page_lines::lay_page;
use words::count_bases;

// The numbers of a list's firings: as many as a list may have.
// Kept: three arrays and a count, since Laid of lay_page and with_firing name them, and the engine has no heap.
#[derive(Clone, Copy)]
struct Rows {
    count: usize,
    keys: [u16; MAX_LIVE],
    steps: [u8; MAX_LIVE],
    moved: [u8; MAX_LIVE],
}

// No firing.
#[tactic(auto, unfolding(crate::specs::Rows::no_rows))]
fn no_rows() -> Rows
    ensures { result ≡ no_rows }
{
    Rows {
        count: 0,
        keys: [0; MAX_LIVE],
        steps: [0; MAX_LIVE],
        moved: [0; MAX_LIVE],
    }
}

// One firing more, where there is room.
#[tactic(auto, unfolding(crate::specs::Rows::with_firing))]
fn with_firing(r: Rows, f: Firing) -> Rows
    ensures { result ≡ with_firing r f }
{
    let n = r.count;
    if MAX_LIVE <= n {
        return r;
    }
    let mut s = r;
    s.keys[n] = f.key.0;
    s.steps[n] = f.transition;
    s.moved[n] = count_bases(f.moved);
    s.count = n + 1;
    s
}

// The page of the rows, for a list of n firings.
fn laid(r: Rows, n: usize, number: u16, buf: &mut [u8]) -> Verdict
    ensures { Laid (rows_in r.keys r.steps r.moved n) n number buf.old result buf.new }
{
    lay_page(buf, &r.keys, &r.steps, &r.moved, n, number)
}

// A page of the list into the lent buffer: every byte of it is said, and nothing is written where the page is refused.
pub fn page(list: &[Firing], number: u16, buf: &mut [u8]) -> Verdict
    ensures { Paged list.now number buf.old result buf.new }
{
    let mut rows = no_rows();
    for f in list {
        rows = with_firing(rows, *f);
    }
    laid(rows, list.len(), number, buf)
}

// As many firings as `page_of` takes: one more than a list may have.
const LENT: usize = 257;

// n, and no more than `page_of` takes.
fn at_most(n: usize) -> usize
    ensures { result ≡ pick (ltb n lent_firings) n lent_firings }
{
    n.min(LENT)
}

// The same by value, so that a program can make the call: the first n firings of an array are lent to `page`.
pub fn page_of(firings: [Firing; LENT], n: usize, number: u16, buf: &mut [u8]) -> Verdict
    ensures { Paged (take n firings) number buf.old result buf.new }
{
    page(&firings[..at_most(n)], number, buf)
}

// The list that a record gives, as `page_of` takes it.
pub fn lendable(list: [Firing; MAX_LIVE]) -> [Firing; LENT]
    ensures { result ≡ list ++ (no_firing ∷ []) }
{
    let zero = Firing {
        transition: 0,
        key: Key(0),
        moved: 0,
    };
    let mut a = [zero; LENT];
    a[..MAX_LIVE].copy_from_slice(&list);
    a
}
