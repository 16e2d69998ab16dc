// The table of last movers (document 02, T-06), worked out anew from live firings: for records that the cases alter.
// For each part the key of the last live firing that moved it, 0 where none did.
use oracle::sets::has;
use std::array;

fn last_mover(live: usize, keys: &[u16; 256], moved: &[u64; 256], p: usize) -> Option<u16> {
    let firings = keys.iter().zip(moved).take(live);
    firings
        .filter(|&(_, &set)| has(set, p))
        .last()
        .map(|(&key, _)| key)
}

pub fn last_movers(live: usize, keys: &[u16; 256], moved: &[u64; 256]) -> [u16; 64] {
    array::from_fn(|p| last_mover(live, keys, moved, p).unwrap_or(0))
}
