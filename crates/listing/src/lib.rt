// The listing of a record's live firings (document 02, T-09): time and again, of those that share no base with
// one before them, the one of least step. The session's call checks the sheet and the record first.
#![tactic(auto)]

ghost use Rattle.std.specs.Prelude.{◌≡◌, ◌-◌, ◌<◌, ◌≤◌};
ghost use Rattle.net.specs.Limits.{max_bases, max_live};
ghost use Rattle.net.specs.Journal.{transition};
ghost use Rattle.firings.specs.Lines.{lines_in};
ghost use Rattle.listing.specs.First.{step_at, next_at, without_at, listing};
ghost use Rattle.listing.specs.Listing.{listing_of, no_listing};

use firings::Firings;
use net::{MAX_LIVE, Transition, Verdict};
use words::{shares, union};

// The answer, how many firings are live, and their step numbers in the order of the listing. Unused entries hold 0.
#[derive(Clone, Copy)]
pub struct Listing {
    pub answer: Verdict,
    pub count: usize,
    pub transitions: [Transition; MAX_LIVE],
}

// Where the firing of least step stands among those that share no base with one before them. `next_step` has some left.
fn next_at(f: &Firings) -> usize
    requires { (0 < f.now.live) × (f.now.live ≤ max_live) }
    ensures upper_bound { result < f.now.live }
    ensures by_index { result ≡ next_at (lines_in max_bases f.now) }
{
    let mut seen = f.moved[0];
    let mut best = 0;
    for i in 1..f.live {
        let free = !shares(seen, f.moved[i]);
        if free & (f.transitions[i] < f.transitions[best]) {
            best = i;
        }
        seen = union(seen, f.moved[i]);
    }
    best
}

// The step of that firing, which goes: the later ones close up. `list_steps` has some left.
fn next_step(f: &mut Firings) -> Transition
    requires { (0 < f.old.live) × (f.old.live ≤ max_live) }
    ensures value { result ≡ transition (step_at (lines_in max_bases f.old) (next_at (lines_in max_bases f.old))) }
    ensures moved_after { lines_in max_bases f.new ≡ without_at (next_at (lines_in max_bases f.old)) (lines_in max_bases f.old) }
    ensures one_less { f.new.live ≡ f.old.live - 1 }
{
    let i = next_at(f);
    let step = f.firing_at(i).transition_of();
    f.close_up(i);
    step
}

// The step numbers in the order of the listing, with their number. The live firings of a sound record are within the limit.
pub fn list_steps(mut f: Firings) -> Listing
    requires { f.live ≤ max_live }
    ensures { result ≡ listing_of (listing (lines_in max_bases f)) }
{
    let count = f.live;
    let mut steps = [Transition(0); MAX_LIVE];
    for n in 0..count {
        steps[n] = next_step(&mut f);
    }
    Listing {
        answer: Verdict::Accepted,
        count,
        transitions: steps,
    }
}

// A refused call: no step.
pub fn list_none(n: u8) -> Listing
    ensures { result ≡ no_listing n }
{
    Listing {
        answer: Verdict::Refused(n),
        count: 0,
        transitions: [Transition(0); MAX_LIVE],
    }
}
