// Whether what a record holds is sound for a sheet (document 01, commands, record, tally; refusal 10): it has the form,
// its keys ascend, and its firings, run forward alone from the start, are accepted and end in its marking; the highest key given is
// no lower than any of them (document 02, T-03), and the table of last movers is theirs (T-06).
#![tactic(auto)]

ghost use Rattle.std.specs.Prelude.{◌≡◌, true, [], ◌<◌};
ghost use Rattle.net.specs.Checks.{clear, first};
ghost use Rattle.format.specs.Parts.{bases_of};
ghost use Rattle.sheet.specs.Checks.{sheet_checks};
ghost use Rattle.marking.specs.Form.{laid};
ghost use Rattle.sound.specs.Soundness.{runs_in, LaidOut, checks_in, Kept};

use firings::Firings;
use format::base_count;
use marking::Marking;
use marking_form::in_form;
use movers::table::fits;
use net::{Key, MAX_BASES, MAX_LIVE};
use replaying::runs_to;
use sheet::check_sheet;

// Whether what a record holds, the highest key given aside, is sound for the sheet; where it is, it is laid out as what it
// holds is. `record_refusal` has checked the sheet.
fn is_sound(sheet: &[u8], m: &Marking, f: &Firings) -> bool
    requires { clear (sheet_checks sheet.now) ≡ true }
    ensures value { result ≡ runs_in sheet.now m.now f.now }
    ensures laid_out { result ≡ true → LaidOut (bases_of sheet.now) m.now f.now }
{
    let n = base_count(sheet) as usize;
    if MAX_LIVE < f.live {
        return false;
    }
    let formed = in_form(n, m);
    let listed = f.in_form(n);
    let rising = f.keys_climb();
    if !(formed & (listed & rising)) {
        return false;
    }
    runs_to(sheet, f, m)
}

// The first of 1 to 10 that holds, of any sheet and of what any record holds; 0 where none does. Every call on a record asks
// for it first.
pub fn record_refusal(
    sheet: &[u8],
    m: &Marking,
    f: &Firings,
    movers: &[u16; MAX_BASES],
    given: Key,
) -> u8
    ensures value { result ≡ first (checks_in sheet.now m.now f.now given movers.now []) }
    ensures kept { result ≡ 0 → Kept sheet.now m.now f.now given movers.now }
{
    let checked = check_sheet(sheet);
    let refusal = checked.number();
    if refusal != 0 {
        return refusal;
    }
    if !is_sound(sheet, m, f) {
        return 10;
    }
    let last = f.last_key();
    if given.0 < last.0 {
        return 10;
    }
    if fits(movers, f) { 0 } else { 10 }
}
