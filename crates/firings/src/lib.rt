// The live firings of a session record, in three arrays of numbers: one put in or taken out, their form, their keys.
// Entries after the live ones hold 0.
#![tactic(auto)]

ghost use Rattle.std.specs.Prelude.{◌≡◌, true, ◌<◌, ◌≤◌, ltb, MatchOption};
ghost use Rattle.net.specs.Limits.{max_bases, max_live};
ghost use Rattle.net.specs.Journal.{transition};
ghost use Rattle.net.specs.Tests.{count};
ghost use Rattle.firings.specs.Lines.{firing_at, lines_in, firings_of, closed_up, pushed};
ghost use Rattle.firings.specs.Search.{keys_in, last_key, index_of};
ghost use Rattle.firings.specs.Form.{firings_in_form, climbs};

use net::{Key, MAX_KEY, MAX_LIVE, Transition};
use words::low_bits;

// A live firing. The transition's number is kept in one byte; `transition_of` is what reads it. The moved bases are a word.
#[derive(Clone, Copy)]
pub struct Firing {
    pub transition: u8,
    pub key: Key,
    pub moved: u64,
}

impl Firing {
    pub fn transition_of(self) -> Transition
        ensures { result ≡ transition self.transition }
    {
        Transition(self.transition as u16)
    }
}

// The live firings as a record keeps them: the firing at i is the numbers at i.
#[derive(Clone, Copy)]
pub struct Firings {
    pub live: usize,
    pub transitions: [u8; MAX_LIVE],
    pub keys: [u16; MAX_LIVE],
    pub moved: [u64; MAX_LIVE],
}

impl Firings {
    // The firing at i. The callers ask below the limit.
    pub fn firing_at(&self, i: usize) -> Firing
        requires { i < max_live }
        ensures { result ≡ firing_at self.now.transitions self.now.keys self.now.moved i }
    {
        Firing {
            transition: self.transitions[i],
            key: Key(self.keys[i]),
            moved: self.moved[i],
        }
    }

    // One more firing, after the live ones. The callers have seen that there is room.
    pub fn push(&mut self, f: Firing)
        requires { self.old.live < max_live }
        ensures { self.new ≡ pushed f self.old }
    {
        self.transitions[self.live] = f.transition;
        self.keys[self.live] = f.key.0;
        self.moved[self.live] = f.moved;
        self.live += 1;
    }

    // The live firing at i is gone: the later ones close up, and the entry that this frees holds 0. The callers have found i among
    // the live ones of a sound record.
    pub fn close_up(&mut self, i: usize)
        requires { (i < self.old.live) × (self.old.live ≤ max_live) }
        ensures { self.new ≡ closed_up i self.old }
    {
        let n = self.live;
        let last = n - 1;
        self.transitions.copy_within(i + 1..n, i);
        self.keys.copy_within(i + 1..n, i);
        self.moved.copy_within(i + 1..n, i);
        self.transitions[last] = 0;
        self.keys[last] = 0;
        self.moved[last] = 0;
        self.live = last;
    }

    // Whether live firings are in their form: no base from n on is in a moved set, and unused entries are 0. Those in their form
    // are laid out as the lines that they hold are. The callers have an accepted sheet of n bases, and have seen that there are no
    // more firings than the limit, here and below. Every entry is looked at: no early exit, here and below.
    pub fn in_form(&self, n: usize) -> bool
        requires { (n ≤ max_bases) × (self.now.live ≤ max_live) }
        ensures value { result ≡ firings_in_form n self.now }
        ensures laid_out { result ≡ true → self.now ≡ firings_of (lines_in n self.now) }
    {
        let top = low_bits(n);
        let used = self.moved[..self.live]
            .iter()
            .fold(true, |ok, &w| ok & (w <= top));
        let steps = self.transitions[self.live..]
            .iter()
            .fold(true, |ok, &t| ok & (t == 0));
        let serials = self.keys[self.live..]
            .iter()
            .fold(true, |ok, &k| ok & (k == 0));
        let sets = self.moved[self.live..]
            .iter()
            .fold(true, |ok, &w| ok & (w == 0));
        used & (steps & (serials & sets))
    }

    // The live keys strictly ascend, from 1 to 65,535.
    pub fn keys_climb(&self) -> bool
        requires { self.now.live ≤ max_live }
        ensures { result ≡ climbs 0 (keys_in self.now.live self.now.keys) }
    {
        let mut ok = true;
        let mut last = 0;
        for &k in &self.keys[..self.live] {
            ok &= (last < k) & (k <= MAX_KEY);
            last = k;
        }
        ok
    }

    // The key of the last live firing; 0 where none is live.
    pub fn last_key(&self) -> Key
        requires { self.now.live ≤ max_live }
        ensures { result ≡ last_key self.now.live self.now.keys }
    {
        if self.live == 0 {
            Key(0)
        } else {
            Key(self.keys[self.live - 1])
        }
    }

    // How many live keys are less. Every one is looked at, and the count is as wide as a key: so the compiler takes many at a time.
    fn lower_keys(&self, key: Key) -> u16
        requires { self.now.live ≤ max_live }
        ensures { result ≡ count (λ x. ltb x key.0) (keys_in self.now.live self.now.keys) }
    {
        let mut n = 0;
        for &k in &self.keys[..self.live] {
            n += u16::from(k < key.0);
        }
        n
    }

    // Where the live firing of that key stands. The keys of a sound record ascend: so a key that is live stands behind as many as
    // are less.
    pub fn index_of(&self, key: Key) -> Option<usize>
        requires { (self.now.live ≤ max_live) × (climbs 0 (keys_in self.now.live self.now.keys) ≡ true) }
        ensures { MatchOption result (self.now.live ≡ index_of key (keys_in self.now.live self.now.keys))
            (λ i. (i ≡ index_of key (keys_in self.now.live self.now.keys)) × (i < self.now.live)) }
    {
        let n = usize::from(self.lower_keys(key));
        if n < self.live && self.keys[n] == key.0 {
            Some(n)
        } else {
            None
        }
    }
}
