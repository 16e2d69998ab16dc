// The closing lines of what a record holds (document 01, the exam program): places, couplings, live firings, tally.
// The whole output sees to the room.
#![tactic(auto)]

ghost use Rattle.std.specs.Prelude.{◌≡◌, ◌+◌, ◌<◌, ◌≤◌, length, take};
ghost use Rattle.net.specs.Limits.{max_bases, max_bonds, max_live};
ghost use Rattle.firings.specs.Search.{keys_in};
ghost use Rattle.closing.specs.Closing.{places_line, live_line};
ghost use Rattle.sound.specs.Soundness.{journal_in};
ghost use Rattle.text.specs.Writes.{Wrote};
ghost use Rattle.final_lines.specs.Final.{closing_of, places_room, live_room, closing_room};

use closing::{put_bonds, put_live, put_places, put_tally};
use net::{MAX_BASES, Place};
use session::Record;
use tally::Tally;

// The places as wider numbers.
fn widened(places: [Place; MAX_BASES]) -> [u16; MAX_BASES]
    ensures { result ≡ places }
{
    places.map(u16::from)
}

// `places` and the places of the first n bases. `put_closing` sees to the room, as for the function below.
fn put_base_places(buf: &mut [u8], at: usize, places: [Place; MAX_BASES], n: usize) -> usize
    requires { (at + places_room ≤ length buf.old) × (n ≤ max_bases) }
    ensures wrote { Wrote (places_line (take n places)) at buf.old result buf.new }
    ensures upper_bound { result ≤ at + places_room }
{
    let wide = widened(places);
    put_places(buf, at, &wide[..n])
}

// `live` and the first n keys.
fn put_live_keys(buf: &mut [u8], at: usize, keys: &[u16], n: usize) -> usize
    requires { (at + live_room ≤ length buf.old) × (n ≤ max_live) × (n ≤ length keys.now) }
    ensures wrote { Wrote (live_line (keys_in n keys.now)) at buf.old result buf.new }
    ensures upper_bound { result ≤ at + live_room }
{
    put_live(buf, at, &keys[..n])
}

// The closing lines of what a record holds. `put_session` has a sound record and sees to the room.
pub fn put_closing(buf: &mut [u8], at: usize, bases: usize, r: Record, t: Tally) -> usize
    requires { (at + closing_room ≤ length buf.old) × (bases ≤ max_bases) × (r.marking.count ≤ max_bonds) × (r.firings.live ≤ max_live) }
    ensures wrote { Wrote (closing_of (journal_in bases r.marking r.firings r.given) t) at buf.old result buf.new }
    ensures upper_bound { result ≤ at + closing_room }
{
    let m = r.marking;
    let f = r.firings;
    let a = put_base_places(buf, at, m.places, bases);
    let b = put_bonds(buf, a, &m.lo, &m.hi, m.count);
    let c = put_live_keys(buf, b, &f.keys, f.live);
    put_tally(buf, c, t.fired, t.undone, t.refused)
}
