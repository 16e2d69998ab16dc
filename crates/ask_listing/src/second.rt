// The order of the listing (document 02, T-09): a firing has to wait for each other before it that is not listed yet and moved a common
// part. Of those that have none to wait for, the one of least step number is listed next.
use least_sets::lines::{MOST, append, count_of, moved_at, share, step_at};

// Whether firing i is not listed, and none before it that is not listed moved a common part.
fn may_come(h: &[u64], listed: &[bool; MOST], i: usize) -> bool {
    !listed[i % MOST] && (0..i).all(|j| listed[j % MOST] || !share(h, j, i))
}

fn next_of(h: &[u64], listed: &[bool; MOST]) -> Option<usize> {
    (0..count_of(h))
        .filter(|&i| may_come(h, listed, i))
        .min_by_key(|&i| step_at(h, i))
}

// The firings in the order of the listing. The slice holds zeros before.
pub fn lay_second(out: &mut [u64], h: &[u64]) {
    let mut listed = [false; MOST];
    for _ in 0..count_of(h) {
        if let Some(i) = next_of(h, &listed) {
            append(out, step_at(h, i), moved_at(h, i));
            listed[i % MOST] = true;
        }
    }
}
