// Numbers that look drawn by lot and are the same on every run: each is worked out from a seed and where it is used.
// No state is kept between them.

fn stirred(x: u64) -> u64 {
    let y = (x % 2147483648) * 1103515245 + 12345;
    y ^ (y >> 15)
}

// The number for a seed and three indexes.
pub fn mixed(seed: u64, a: u64, b: u64, c: u64) -> u64 {
    let x = stirred(stirred(seed) ^ a);
    let y = stirred(stirred(x) ^ b);
    stirred(stirred(y) ^ c) / 65536
}

// Quotient and remainder; 0 where n is 0.
pub fn over(x: u64, n: u64) -> u64 {
    x.checked_div(n).unwrap_or(0)
}

pub fn below(x: u64, n: u64) -> u64 {
    x.checked_rem(n).unwrap_or(0)
}

// Whether the number falls in the first n of 16.
pub fn falls(x: u64, n: u64) -> bool {
    x % 16 < n
}
