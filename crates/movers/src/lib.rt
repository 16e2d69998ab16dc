// Which live firing moved a base last, and which stands on top of it, by the moved sets of the live firings in their order.
// What the way back (document 02, T-04) takes back first; the table that a record keeps (T-06) is in its own module.
#![tactic(auto)]

pub mod table;

ghost use Rattle.std.specs.Prelude.{◌≡◌, suc, ◌<◌, ◌≤◌, get_or, drop, MatchOption};
ghost use Rattle.net.specs.Limits.{max_bases, max_live};
ghost use Rattle.net.specs.Journal.{no_line};
ghost use Rattle.firings.specs.Lines.{lines_in};
ghost use Rattle.movers.specs.Tops.{sharing, top_of, LastAt, TopPlace};

use firings::Firings;
use net::Base;
use words::{has_base, shares};

// Where the last live firing that moved p stands. Every one is looked at. The callers have no more firings than the limit and ask
// for a base of the sheet, here and below.
fn last_mover(f: &Firings, p: Base) -> Option<usize>
    requires { (f.now.live ≤ max_live) × (p < max_bases) }
    ensures { MatchOption result (LastAt p (lines_in max_bases f.now) f.now.live)
        (λ i. LastAt p (lines_in max_bases f.now) i × (i < f.now.live)) }
{
    let mut last = None;
    for i in 0..f.live {
        last = if has_base(f.moved[i], p) {
            Some(i)
        } else {
            last
        };
    }
    last
}

// From the firing at c up: the one in hand gives way to each later one that moved a base which it moved.
fn top_from(f: &Firings, c: usize) -> usize
    requires { (c < f.now.live) × (f.now.live ≤ max_live) }
    ensures upper_bound { result < f.now.live }
    ensures by_index { get_or (lines_in max_bases f.now) result no_line
        ≡ top_of sharing (get_or (lines_in max_bases f.now) c no_line) (drop (suc c) (lines_in max_bases f.now)) }
{
    let mut top = c;
    for i in c + 1..f.live {
        if shares(f.moved[top], f.moved[i]) {
            top = i;
        }
    }
    top
}

// Where the firing stands on which nothing was built and which was built, through others, on the last that moved p, or is that one.
pub fn top_at(f: &Firings, p: Base) -> Option<usize>
    requires { (f.now.live ≤ max_live) × (p < max_bases) }
    ensures { MatchOption result (TopPlace sharing p (lines_in max_bases f.now) f.now.live)
        (λ i. TopPlace sharing p (lines_in max_bases f.now) i × (i < f.now.live)) }
{
    let c = last_mover(f, p)?;
    Some(top_from(f, c))
}
