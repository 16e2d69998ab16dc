// What is asked of a record (document 02, T-01, T-04, T-06, T-08, T-09): its live firings as a list, the way back, the lamps, how far one
// firing spreads, the listing. Sheet and record are checked first; no call has a tally in sight, and the record stays the caller's.
#![tactic(auto)]

ghost use Rattle.std.specs.Prelude.{[], ◌≡◌};
ghost use Rattle.net.specs.Checks.{first, verdict_number};
ghost use Rattle.session.specs.Commands.{record_checks};
ghost use Rattle.questions.specs.Lamps.{can_undo, lamps_of};
ghost use Rattle.questions.specs.Listing.{listing_for};
ghost use Rattle.questions.specs.Live.{live_firings};
ghost use Rattle.questions.specs.Spread.{spread_checks, spread_for};
ghost use Rattle.questions.specs.Ways.{way_back_checks, way_back_of};

use lamps::{Lamps, is_lit, show, show_none};
use listing::{Listing, list_none, list_steps};
use live_list::{LiveFirings, list_live, no_live};
use net::Key;
use session::Record;
use spread::{Spread, spread_of, tell_none};
use way_back::{WayBack, no_way, way_from};

// The live firings in their order, with their number: 1 to 10 first; no firing and zeros where the call is refused.
pub fn live_firings(r: Record, sheet: &[u8]) -> LiveFirings
    ensures value { result ≡ live_firings sheet.now r }
    ensures answer_value { verdict_number result.answer ≡ first (record_checks sheet.now r []) }
{
    let refusal = r.refusal_on(sheet);
    if refusal != 0 {
        return no_live(refusal);
    }
    list_live(&r.firings)
}

// The smallest set of live firings to take back so that every part is where the layout names it, a byte for each part, 255 for
// any place: their keys in descending order. 1 to 10, 27, 28; no key where the call is refused.
pub fn way_back(r: Record, sheet: &[u8], layout: &[u8]) -> WayBack
    ensures value { result ≡ way_back_of sheet.now r layout.now }
    ensures answer_value { verdict_number result.answer ≡ first (way_back_checks sheet.now r layout.now) }
{
    let refusal = r.refusal_on(sheet);
    if refusal != 0 {
        return no_way(refusal);
    }
    way_from(sheet, layout, r.marking, r.firings)
}

// Whether the firing of that key can be taken back now: yes exactly where kind 3 with that key would be answered undone.
// No where 1 to 10 would refuse, or the key is not live.
pub fn can_undo(r: Record, sheet: &[u8], key: Key) -> bool
    ensures { result ≡ can_undo sheet.now r key }
{
    let refusal = r.refusal_on(sheet);
    if refusal != 0 {
        return false;
    }
    is_lit(&r.movers, &r.firings, key)
}

// The lamps of all live firings in their order, with their number: 1 to 10 first; none is lit where the call is refused.
pub fn lamps(r: Record, sheet: &[u8]) -> Lamps
    ensures value { result ≡ lamps_of sheet.now r }
    ensures answer_value { verdict_number result.answer ≡ first (record_checks sheet.now r []) }
{
    let refusal = r.refusal_on(sheet);
    if refusal != 0 {
        return show_none(refusal);
    }
    show(&r.movers, &r.firings)
}

// The parts moved by the firing of that key, or by a live one that depends on it, directly or through others: a flag for each
// part. 1 to 10, then 19 where the key is not live; no part where the call is refused.
pub fn spread(r: Record, sheet: &[u8], key: Key) -> Spread
    ensures value { result ≡ spread_for sheet.now r key }
    ensures answer_value { verdict_number result.answer ≡ first (spread_checks sheet.now r key) }
{
    let refusal = r.refusal_on(sheet);
    if refusal != 0 {
        return tell_none(refusal);
    }
    spread_of(&r.firings, key)
}

// The steps of the live firings in the reordering, among those that keep the order of firings with a common part, that is first
// when compared number by number. 1 to 10; no step where the call is refused.
pub fn listing(r: Record, sheet: &[u8]) -> Listing
    ensures value { result ≡ listing_for sheet.now r }
    ensures answer_value { verdict_number result.answer ≡ first (record_checks sheet.now r []) }
{
    let refusal = r.refusal_on(sheet);
    if refusal != 0 {
        return list_none(refusal);
    }
    list_steps(r.firings)
}
