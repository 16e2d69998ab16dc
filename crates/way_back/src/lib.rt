// The way back to a wanted layout (document 02, T-04): the smallest set of live firings to take back.
// On a copy of what the record holds one firing after another is taken back; those that went are the set.
#![tactic(auto)]

ghost use Rattle.std.specs.Prelude.{◌≡◌, true, ℕ, ◌<◌, ◌≤◌, length};
ghost use Rattle.net.specs.Limits.{max_live};
ghost use Rattle.net.specs.Tests.{pick};
ghost use Rattle.net.specs.Journal.{key, is_live};
ghost use Rattle.net.specs.declared.Key.{Key};
ghost use Rattle.format.specs.Parts.{bases_of};
ghost use Rattle.format.specs.NetOf.{net_of};
ghost use Rattle.labels.specs.Labelled.{Labelled};
ghost use Rattle.marking.specs.Form.{bonds_of};
ghost use Rattle.firings.specs.Lines.{lines_in};
ghost use Rattle.firings.specs.Search.{keys_in};
ghost use Rattle.firings.specs.Form.{climbs};
ghost use Rattle.sound.specs.Soundness.{journal_in, Passed};
ghost use Rattle.way_back.specs.Ways.{descending, away};
ghost use Rattle.way_back.specs.Answer.{way_of, no_way_back, way_from};
ghost use Rattle.way_back.specs.Search.{Searched};

use firings::Firings;
use format::{base_count, place_count};
use labels::Labels;
use layout::{unfit_layout, wrong_base};
use marking::Marking;
use movers::top_at;
use net::{Base, Key, MAX_LIVE, Verdict};
use undoing::undo_at;

// The answer, how many firings are to be taken back, and their keys in descending order. Unused entries hold 0.
#[derive(Clone, Copy)]
pub struct WayBack {
    pub answer: Verdict,
    pub count: usize,
    pub keys: [Key; MAX_LIVE],
}

// A refused call: no key, and zeros.
pub fn no_way(n: u8) -> WayBack
    ensures { result ≡ no_way_back n }
{
    WayBack {
        answer: Verdict::Refused(n),
        count: 0,
        keys: [Key(0); MAX_LIVE],
    }
}

// Whether the key is live. The callers hold keys in ascending order, here and below.
fn is_live(f: &Firings, k: Key) -> bool
    requires { (f.now.live ≤ max_live) × (climbs 0 (keys_in f.now.live f.now.keys) ≡ true) }
    ensures { (n : ℕ) → result ≡ is_live k (lines_in n f.now) }
{
    match f.index_of(k) {
        Some(_) => true,
        None => false,
    }
}

// The key, or 0 where it is live.
fn key_unless(live: bool, k: Key) -> Key
    ensures { result ≡ pick live (key 0) k }
{
    if live { Key(0) } else { k }
}

// How many entries it takes.
fn one_unless(live: bool) -> usize
    ensures { (result ≡ pick live 0 1) × (result ≤ 1) }
{
    if live { 0 } else { 1 }
}

// The keys that were live before and are not any more, the highest first.
fn gone_keys(before: &Firings, after: &Firings) -> WayBack
    requires { (before.now.live ≤ max_live) × (after.now.live ≤ max_live)
        × (climbs 0 (keys_in after.now.live after.now.keys) ≡ true) }
    ensures { (n : ℕ) → result ≡ way_of (descending (away (lines_in n after.now)) (lines_in n before.now)) }
{
    let mut keys = [Key(0); MAX_LIVE];
    let mut count = 0;
    for i in (0..before.live).rev() {
        let k = Key(before.keys[i]);
        let here = is_live(after, k);
        keys[count] = key_unless(here, k);
        count += one_unless(here);
    }
    WayBack {
        answer: Verdict::Accepted,
        count,
        keys,
    }
}

// One turn, in place on what a sound record holds: the firing on top of the last one that moved the first base which is not
// where it is wanted is taken back. Answers how many turns there may still be: none follows where every base is right, or no live
// firing moved that one.
// What is lent passes 1 to 10, the labels are those of its bonds and 27 does not hold, here and below: `way_from` sees to it.
fn turn(
    sheet: &[u8],
    layout: &[u8],
    m: &mut Marking,
    f: &mut Firings,
    labels: &mut Labels,
    turns: usize,
) -> usize
    requires passed { (k : Key) × Passed sheet.now m.old f.old k }
    requires labelled { Labelled labels.old.of labels.old.members (bonds_of m.old) × (length layout.now ≡ bases_of sheet.now) × (0 < turns) }
    ensures searched { Searched sheet.now layout.now m.old f.old turns m.new f.new result }
    ensures labelled_2 { Labelled labels.new.of labels.new.members (bonds_of m.new) × (result < turns) }
{
    let n = base_count(sheet) as usize;
    let p = wrong_base(layout, &m.places, n);
    if n <= p {
        return 0;
    }
    let Some(i) = top_at(f, p as Base) else {
        return 0;
    };
    undo_at(sheet, m, f, labels, i);
    turns - 1
}

// All turns, as many as firings are live at most.
fn retreat_in(sheet: &[u8], layout: &[u8], m: &mut Marking, f: &mut Firings, labels: &mut Labels)
    requires passed { (k : Key) × Passed sheet.now m.old f.old k }
    requires labelled { Labelled labels.old.of labels.old.members (bonds_of m.old) × (length layout.now ≡ bases_of sheet.now) }
    ensures { Searched sheet.now layout.now m.old f.old f.old.live m.new f.new 0 }
{
    let mut turns = f.live;
    while 0 < turns {
        turns = turn(sheet, layout, m, f, labels, turns);
    }
}

// 27, 28, or the way back, of what a sound record holds. The session's call has checked the sheet and the record.
pub fn way_from(sheet: &[u8], layout: &[u8], m: Marking, f: Firings) -> WayBack
    requires { (k : Key) × Passed sheet.now m f k }
    ensures { (k : Key) → Passed sheet.now m f k → result ≡ way_from (net_of sheet.now) layout.now (journal_in (bases_of sheet.now) m f k) }
{
    let n = base_count(sheet) as usize;
    let unfit = unfit_layout(n, place_count(sheet), layout);
    if unfit {
        return no_way(27);
    }
    let mut end = m;
    let mut left = f;
    let mut labels = Labels::of_marking(&end);
    retreat_in(sheet, layout, &mut end, &mut left, &mut labels);
    let wrong = wrong_base(layout, &end.places, n);
    if wrong != n {
        return no_way(28);
    }
    gone_keys(&f, &left)
}
