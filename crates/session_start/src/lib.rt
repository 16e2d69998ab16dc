// Starting a session on a sheet (document 01, the session book; the turned-away list): the fresh record, or a record of
// zeros with the sheet's refusal. Any bytes may be handed in.
#![tactic(auto)]

ghost use Rattle.std.specs.Prelude.{◌≡◌, []};
ghost use Rattle.net.specs.Checks.{first, verdict_number};
ghost use Rattle.sheet.specs.Checks.{sheet_checks};
ghost use Rattle.firings.specs.Lines.{firings_of};
ghost use Rattle.session.specs.Commands.{zero_record, start_of};

use firings::Firings;
use fresh_marking::start_marking;
use marking::Marking;
use net::{Key, MAX_BASES, MAX_BONDS, MAX_LIVE, Verdict};
use session::{Record, Start};
use sheet::check_sheet;

// No live firing.
fn no_firings() -> Firings
    ensures { result ≡ firings_of [] }
{
    Firings {
        live: 0,
        transitions: [0u8; MAX_LIVE],
        keys: [0u16; MAX_LIVE],
        moved: [0u64; MAX_LIVE],
    }
}

// A record of zeros.
fn zero_record() -> Record
    ensures { result ≡ zero_record }
{
    let m = Marking {
        places: [0u8; MAX_BASES],
        count: 0,
        lo: [0u8; MAX_BONDS],
        hi: [0u8; MAX_BONDS],
    };
    Record {
        marking: m,
        firings: no_firings(),
        movers: [0u16; MAX_BASES],
        given: Key(0),
    }
}

// The fresh record of an accepted sheet; of any other its refusal, and a record of zeros.
pub fn start(sheet: &[u8]) -> Start
    ensures value { result ≡ start_of sheet.now }
    ensures answer_value { verdict_number result.answer ≡ first (sheet_checks sheet.now) }
{
    let checked = check_sheet(sheet);
    let refusal = checked.number();
    if refusal != 0 {
        return Start {
            answer: Verdict::Refused(refusal),
            session: zero_record(),
        };
    }
    let m = start_marking(sheet);
    Start {
        answer: Verdict::Accepted,
        session: Record {
            marking: m,
            firings: no_firings(),
            movers: [0u16; MAX_BASES],
            given: Key(0),
        },
    }
}
