// How many acts there are of a tag, and whether each count of a step is of one byte.
ghost use Rattle.std.specs.Prelude.{◌≡◌, ◌≤◌, eqb};
ghost use Rattle.net.specs.Tests.{pick, all, table};
ghost use Rattle.sheet_draft.specs.Acts.{tag_of};
ghost use Rattle.sheet_draft.specs.Bytes.{count_of, step_fits, counts_fit};

// w where an act is of a tag, else 0.
pub fn width_of(x: u64, tag: u64, w: usize) -> usize
    ensures { result ≡ pick (eqb (tag_of x) tag) w 0 }
{
    if x / 16777216 == tag { w } else { 0 }
}

// How many acts are of a tag.
pub fn count_of(acts: &[u64], tag: u64) -> usize
    ensures { result ≡ count_of tag acts.now }
{
    let mut n = 0;
    for &x in acts {
        n += width_of(x, tag, 1);
    }
    n
}

// Each count of a step is of one byte. The caller's steps are fewer than a sheet's bytes, as below.
fn step_fits(acts: &[u64], k: usize) -> bool
    requires { k ≤ 65535 }
    ensures { result ≡ step_fits acts.now k }
{
    let t = 3 * k as u64;
    count_of(acts, t + 3) <= 255 && count_of(acts, t + 4) <= 255 && count_of(acts, t + 5) <= 255
}

// Each count of each step is of one byte.
fn steps_fit(acts: &[u64], steps: usize) -> bool
    requires { steps ≤ 65535 }
    ensures { result ≡ all (step_fits acts.now) (table steps (λ k. k)) }
{
    for k in 0..steps {
        if !step_fits(acts, k) {
            return false;
        }
    }
    true
}

// The counts of parts, of steps, and in each step are of one byte. The caller has counted the parts.
#[tactic(auto, unfolding(crate::specs::Bytes::counts_fit))]
pub fn counts_fit(acts: &[u64], parts: usize, steps: usize) -> bool
    requires { (parts ≡ count_of 0 acts.now) × (steps ≤ 65535) }
    ensures { result ≡ counts_fit steps acts.now }
{
    parts <= 255 && steps <= 255 && steps_fit(acts, steps)
}
