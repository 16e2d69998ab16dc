// Why a command is refused (document 01, the turned-away list), as one call that asks nothing of its caller: the reason, with
// what it is about. The customer's own call says the number; reasons finds the first entry, coupling or firing.
#![tactic(auto)]

ghost use Rattle.std.specs.Prelude.{◌≡◌};
ghost use Rattle.net.specs.Checks.{first};
ghost use Rattle.net.specs.Journal.{checks, key_named, transition_named};
ghost use Rattle.net.specs.Net.{arcs_of};
ghost use Rattle.format.specs.Parts.{transition_bytes};
ghost use Rattle.format.specs.NetOf.{net_of};
ghost use Rattle.session.specs.Records.{held_in, Sound};
ghost use Rattle.session.specs.Commands.{command_checks};
ghost use Rattle.commands.specs.Answers.{answer_number};
ghost use Rattle.why.specs.Why.{away_by, absent_by, present_by, torn_by, not_live_by, later_by, reason_for, why_of};
ghost use Rattle.why.specs.Turned.{Turned};

use commands::Answer;
use enabling::kept_labels;
use engine::join_out_bonds;
use format::{byte_at, entry, in_bond, out_bond, transition_bytes, transition_count, word_at};
use net::{Base, Bond, Entry, Key, Place, Transition};
use reasons::{
    first_absent, first_away, first_common, first_later, first_partner, first_present, first_torn,
};
use session::{Record, command_with};
use tally::Tally;

// The reason, by the number of document 01's list; what a variant holds is what the number is about.
#[derive(Clone, Copy)]
pub enum Reason {
    Nothing, // the command would not be refused
    Sheet, // 1 to 9
    Record, // 10
    Short, // 21
    Unreadable, // 11
    Steps(u8), // 12: how many steps the sheet has
    Away(Entry, Place), // 13: the first entry whose part is elsewhere, and where that part is
    Absent(Bond), // 14: the first in-coupling that is not there
    Present(Bond), // 15: the first out-coupling that is no in-coupling and is there already
    Torn(Entry, Entry), // 16: the first entry that hangs together with one that goes elsewhere, and that one
    Full, // 17
    LastKey, // 18
    NoneLive, // 19, for the last firing
    NotLive(Key), // 19, for the firing of a key
    Later(Key, Base), // 20: the first later firing that moved a part which this one moved, and the first such part
}

// The number of an answer; 0 where the command is accepted.
fn number_in(a: Answer) -> u8
    ensures { result ≡ answer_number a }
{
    match a {
        Answer::Fired | Answer::Undone => 0,
        Answer::Refused(n) => n,
    }
}

// The number of the answer that the customer's call would give.
fn number_of(r: Record, sheet: &[u8], bytes: &[u8]) -> u8
    ensures { result ≡ first (command_checks sheet.now r bytes.now) }
{
    let zero = Tally {
        fired: 0,
        undone: 0,
        refused: 0,
    };
    number_in(command_with(r, sheet, bytes, zero).outcome.answer)
}

// The bytes of the step that a command of kind 1 names.
fn step_named<'a>(sheet: &'a [u8], bytes: &[u8]) -> &'a [u8]
    ensures { result.now ≡ transition_bytes sheet.now (transition_named bytes.now) }
{
    transition_bytes(sheet, Transition(word_at(bytes, 1) as u16))
}

// 13. The command is refused by that number, on a sound record and an accepted sheet, here and below: `reason_by` has seen it.
fn why_away(r: Record, sheet: &[u8], bytes: &[u8]) -> Reason
    requires { Turned sheet.now r bytes.now 13 }
    ensures { result ≡ away_by (arcs_of (net_of sheet.now) (transition_named bytes.now)) (held_in sheet.now r).marking }
{
    let step = step_named(sheet, bytes);
    let places = r.marking.places;
    let i = first_away(step, &places);
    let e = entry(step, i);
    let at = places[usize::from(e.base)];
    Reason::Away(e, at)
}

// 14.
fn why_absent(r: Record, sheet: &[u8], bytes: &[u8]) -> Reason
    requires { Turned sheet.now r bytes.now 14 }
    ensures { result ≡ absent_by (arcs_of (net_of sheet.now) (transition_named bytes.now)) (held_in sheet.now r).marking }
{
    let step = step_named(sheet, bytes);
    let i = first_absent(step, &r.marking);
    Reason::Absent(in_bond(step, i))
}

// 15.
fn why_present(r: Record, sheet: &[u8], bytes: &[u8]) -> Reason
    requires { Turned sheet.now r bytes.now 15 }
    ensures { result ≡ present_by (arcs_of (net_of sheet.now) (transition_named bytes.now)) (held_in sheet.now r).marking }
{
    let step = step_named(sheet, bytes);
    let i = first_present(step, &r.marking);
    Reason::Present(out_bond(step, i))
}

// 16: by labels of the bonds after the firing: those that it does not break, and its out-bonds.
fn why_torn(r: Record, sheet: &[u8], bytes: &[u8]) -> Reason
    requires { Turned sheet.now r bytes.now 16 }
    ensures { result ≡ torn_by (arcs_of (net_of sheet.now) (transition_named bytes.now)) (held_in sheet.now r).marking }
{
    let step = step_named(sheet, bytes);
    let mut labels = kept_labels(step, &r.marking);
    join_out_bonds(step, &mut labels);
    let i = first_torn(step, &labels.of);
    let e = entry(step, i);
    let k = first_partner(step, &labels.of, e);
    let d = entry(step, k);
    Reason::Torn(e, d)
}

// 19: the last firing, or that of a key.
fn why_not_live(bytes: &[u8]) -> Reason
    ensures { result ≡ not_live_by bytes.now }
{
    if byte_at(bytes, 0) == 2 {
        Reason::NoneLive
    } else {
        Reason::NotLive(Key(word_at(bytes, 1) as u16))
    }
}

// The key that a command of kind 2 or 3 means. `why_later` has a sound record.
fn key_named(r: Record, sheet: &[u8], bytes: &[u8]) -> Key
    requires { Sound sheet.now r }
    ensures { result ≡ key_named (held_in sheet.now r) bytes.now }
{
    if byte_at(bytes, 0) == 2 {
        r.firings.last_key()
    } else {
        Key(word_at(bytes, 1) as u16)
    }
}

// 20.
fn why_later(r: Record, sheet: &[u8], bytes: &[u8]) -> Reason
    requires { Turned sheet.now r bytes.now 20 }
    ensures { result ≡ later_by (held_in sheet.now r).lines (key_named (held_in sheet.now r) bytes.now) }
{
    let k = key_named(r, sheet, bytes);
    let f = r.firings;
    let Some(i) = f.index_of(k) else {
        unreachable!();
    };
    let at = first_later(&f, i);
    let mine = f.firing_at(i);
    let other = f.firing_at(at);
    let p = first_common(mine.moved, other.moved);
    Reason::Later(other.key, p as u8)
}

// By the number of the command's own checks. `why` has seen that the sheet is accepted and the record sound.
fn reason_by(r: Record, sheet: &[u8], bytes: &[u8], n: u8) -> Reason
    requires { Sound sheet.now r × (n ≡ first (checks (net_of sheet.now) (held_in sheet.now r) bytes.now)) }
    ensures { result ≡ reason_for (net_of sheet.now) (held_in sheet.now r) bytes.now n }
{
    match n {
        0 => Reason::Nothing,
        11 => Reason::Unreadable,
        12 => Reason::Steps(transition_count(sheet)),
        13 => why_away(r, sheet, bytes),
        14 => why_absent(r, sheet, bytes),
        15 => why_present(r, sheet, bytes),
        16 => why_torn(r, sheet, bytes),
        17 => Reason::Full,
        18 => Reason::LastKey,
        19 => why_not_live(bytes),
        20 => why_later(r, sheet, bytes),
        _ => Reason::Short,
    }
}

// Why the command would be refused, of any command on any record and any sheet.
pub fn why(r: Record, sheet: &[u8], bytes: &[u8]) -> Reason
    ensures { result ≡ why_of sheet.now r bytes.now }
{
    let refusal = r.refusal_on(sheet);
    if refusal == 10 {
        Reason::Record
    } else if refusal != 0 {
        Reason::Sheet
    } else {
        reason_by(r, sheet, bytes, number_of(r, sheet, bytes))
    }
}
