// A whole paper handed in together (document 02, T-02): sheet and record are checked once, then all commands are run.
// The answers go as numbers into two lent lists, from entry 0 on: a word and a value each, as `run` has them.
ghost use Rattle.std.specs.Prelude.{◌≡◌};
ghost use Rattle.session.specs.Block.{turned_away, Blocked};

use crate::Record;
use crate::run::run;
use command_list::{block_refusal, how_many};
use net::Verdict;
use tally::Tally;

// The answer, how many answers the lists have (0 where the block is not run), and the record after the block.
#[derive(Clone, Copy)]
pub struct BlockOutcome {
    pub answer: Verdict,
    pub count: usize,
    pub session: Record,
}

// An outcome of a block, and the tally after it.
#[derive(Clone, Copy)]
pub struct BlockCounted {
    pub outcome: BlockOutcome,
    pub tally: Tally,
}

impl Record {
    // A block that is turned away runs no command: the very record and the very tally.
    fn not_run(self, n: u8, t: Tally) -> BlockCounted
        ensures { result ≡ turned_away self n t }
    {
        BlockCounted {
            outcome: BlockOutcome {
                answer: Verdict::Refused(n),
                count: 0,
                session: self,
            },
            tally: t,
        }
    }

    // Any block on any record and any sheet, with the tally by value: 1 to 10, 26, then the commands.
    fn hand_in(
        self,
        sheet: &[u8],
        block: &[u8],
        t: Tally,
        words: &mut [u8],
        values: &mut [u16],
    ) -> BlockCounted
        ensures { Blocked sheet.now self t block.now words.old values.old
            result.outcome result.tally words.new values.new }
    {
        let refusal = self.refusal_on(sheet);
        let turned = block_refusal(refusal, block, words.len(), values.len());
        if turned != 0 {
            return self.not_run(turned, t);
        }
        let ran = run(self, sheet, block, t, words, values);
        let next = ran.session;
        let counts = ran.tally;
        BlockCounted {
            outcome: BlockOutcome {
                answer: Verdict::Accepted,
                count: how_many(block),
                session: next,
            },
            tally: counts,
        }
    }

    // A whole block: the record comes back in the outcome, the lent tally has one more for each command, the lent lists have the
    // answers. Turned away, nothing of the three changes.
    pub fn block(
        self,
        sheet: &[u8],
        block: &[u8],
        t: &mut Tally,
        words: &mut [u8],
        values: &mut [u16],
    ) -> BlockOutcome
        ensures { Blocked sheet.now self t.old block.now words.old values.old
            result t.new words.new values.new }
    {
        let done = self.hand_in(sheet, block, *t, words, values);
        *t = done.tally;
        done.outcome
    }
}

// The same with a tally by value, lent to the block and handed back: so that programs run the very call.
pub fn block_with(
    r: Record,
    sheet: &[u8],
    block: &[u8],
    t: Tally,
    words: &mut [u8],
    values: &mut [u16],
) -> BlockCounted
    ensures { Blocked sheet.now r t block.now words.old values.old
        result.outcome result.tally words.new values.new }
{
    let mut own = t;
    let o = r.block(sheet, block, &mut own, words, values);
    BlockCounted {
        outcome: o,
        tally: own,
    }
}
