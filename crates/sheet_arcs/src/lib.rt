// The conditions under which a sheet is turned away for a transition's length and entries (document 01, 7 and 8), on that
// transition's bytes: a function for each, true where the sheet is refused. Total: each reads any bytes.
#![tactic(auto)]

ghost use Rattle.std.specs.Prelude.{◌≡◌, ◌+◌, ◌<◌, ltb};
ghost use Rattle.net.specs.Tests.{all};
ghost use Rattle.net.specs.Sorted.{ascends};
ghost use Rattle.net.specs.Rules.{entry_rule};
ghost use Rattle.net.specs.declared.Entry.{Entry};
ghost use Rattle.format.specs.Arcs.{arcs_in};
ghost use Rattle.sheet_arcs.specs.Conditions.{wrong_width, wrong_entries};

use format::{arcs_width, entry, entry_count, outside};
use net::{Base, Entry, MAX_ENTRIES, Place};

// 7: the counts give another length, or there are no entries or too many.
#[tactic(auto, unfolding(crate::specs::Conditions::wrong_width))]
pub fn wrong_width(b: &[u8]) -> bool
    ensures { result ≡ wrong_width b.now }
{
    b.len() != arcs_width(b) || outside(usize::from(entry_count(b)), MAX_ENTRIES)
}

// An entry's base and places are there.
fn entry_there(e: Entry, places: Place, bases: Base) -> bool
    ensures { result ≡ entry_rule places bases e }
{
    e.base < bases && e.from < places && e.to < places
}

fn entries_there(b: &[u8], places: Place, bases: Base) -> bool
    ensures { result ≡ all (entry_rule places bases) (arcs_in b.now).entries }
{
    (0..entry_count(b)).all(|i| entry_there(entry(b, i), places, bases))
}

fn entries_ascend(b: &[u8]) -> bool
    ensures { result ≡ ascends (λ e d. ltb e.base d.base) (arcs_in b.now).entries }
{
    (1..entry_count(b)).all(|i| entry(b, i - 1).base < entry(b, i).base)
}

// 8: an entry names what is not there, or the bases do not ascend.
#[tactic(auto, unfolding(crate::specs::Conditions::wrong_entries))]
pub fn wrong_entries(b: &[u8], places: Place, bases: Base) -> bool
    ensures { result ≡ wrong_entries places bases b.now }
{
    !entries_there(b, places, bases) || !entries_ascend(b)
}
