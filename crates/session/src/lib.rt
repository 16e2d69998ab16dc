// Commands on the session record (document 01, commands, record, tally): the record goes in by value and comes out.
// A customer's command checks sheet and record first; `run` asks for a sound record.
#![tactic(auto)]

pub mod block;
pub mod run;

ghost use Rattle.std.specs.Prelude.{◌≡◌, []};
ghost use Rattle.net.specs.Checks.{first};
ghost use Rattle.session.specs.Records.{Sound};
ghost use Rattle.session.specs.Lent.{record_with, held_by};
ghost use Rattle.session.specs.Commands.{refusal, perform_of, record_checks, outcome_for, Commanded};

use commands::{Answer, word_of};
use firings::Firings;
use marking::Marking;
use net::{Key, MAX_BASES, Verdict};
use runs::{Held, perform_on};
use sound::record_refusal;
use tally::Tally;

// The session record: a marking, the live firings in strictly ascending keys, for each base the key of the last live firing that
// moved it (0 where none did), and the highest key ever given. Unused entries hold 0.
#[derive(Clone, Copy)]
pub struct Record {
    pub marking: Marking,
    pub firings: Firings,
    pub movers: [u16; MAX_BASES],
    pub given: Key,
}

// The answer, the key of the firing (0 where the command is refused), and the record after the command.
#[derive(Clone, Copy)]
pub struct Outcome {
    pub answer: Answer,
    pub key: Key,
    pub session: Record,
}

#[derive(Clone, Copy)]
pub struct Start {
    pub answer: Verdict,
    pub session: Record,
}

// An outcome, and the tally after it.
#[derive(Clone, Copy)]
pub struct Counted {
    pub outcome: Outcome,
    pub tally: Tally,
}

// A record that holds this.
fn record_with(h: Held) -> Record
    ensures { result ≡ record_with h }
{
    let Held {
        marking,
        firings,
        movers,
        given,
    } = h;
    Record {
        marking,
        firings,
        movers,
        given,
    }
}

impl Record {
    // What the record holds.
    fn held(self) -> Held
        ensures { result ≡ held_by self }
    {
        let Record {
            marking,
            firings,
            movers,
            given,
        } = self;
        Held {
            marking,
            firings,
            movers,
            given,
        }
    }

    // The first of 1 to 10 that holds; 0 where none does. Every call on a record asks for it first.
    pub fn refusal_on(self, sheet: &[u8]) -> u8
        ensures value { result ≡ first (record_checks sheet.now self []) }
        ensures sound { result ≡ 0 → Sound sheet.now self }
    {
        record_refusal(
            sheet,
            &self.marking,
            &self.firings,
            &self.movers,
            self.given,
        )
    }

    // A refused command: the very record, and key 0.
    fn refused(self, n: u8) -> Outcome
        ensures { result ≡ refusal self n }
    {
        Outcome {
            answer: Answer::Refused(n),
            key: Key(0),
            session: self,
        }
    }

    // A command on a sound record and an accepted sheet. `answer` has seen that the record is sound.
    fn perform(self, sheet: &[u8], bytes: &[u8]) -> Outcome
        requires { Sound sheet.now self }
        ensures { result ≡ perform_of sheet.now self bytes.now }
    {
        let done = perform_on(sheet, bytes, self.held());
        Outcome {
            answer: done.answer,
            key: done.key,
            session: record_with(done.held),
        }
    }

    // Any command on any record and any sheet: 1 to 10, then the command.
    fn answer(self, sheet: &[u8], bytes: &[u8]) -> Outcome
        ensures { result ≡ outcome_for sheet.now self bytes.now }
    {
        let refusal = self.refusal_on(sheet);
        if refusal != 0 {
            return self.refused(refusal);
        }
        self.perform(sheet, bytes)
    }

    // One command: the record comes back in the outcome, and the lent tally has one more in one count.
    pub fn command(self, sheet: &[u8], bytes: &[u8], t: &mut Tally) -> Outcome
        ensures { Commanded sheet.now self t.old bytes.now result t.new }
    {
        let o = self.answer(sheet, bytes);
        let which = word_of(o.answer);
        tally::count(t, which);
        o
    }
}

// The same with a tally by value, lent to the command and handed back: so that programs run the very call.
pub fn command_with(r: Record, sheet: &[u8], bytes: &[u8], t: Tally) -> Counted
    ensures { Commanded sheet.now r t bytes.now result.outcome result.tally }
{
    let mut own = t;
    let o = r.command(sheet, bytes, &mut own);
    Counted {
        outcome: o,
        tally: own,
    }
}
