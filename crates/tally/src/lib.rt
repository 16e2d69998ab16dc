// The tally that the rig lends (document 01, commands, record, tally): three counts, each of which stays at 65,535.
// One thin function adds to a lent tally, over a function by value.
#![tactic(auto)]

ghost use Rattle.std.specs.Prelude.{◌≡◌};
ghost use Rattle.tally.specs.Counts.{one_more, counted_of};

#[derive(Clone, Copy)]
pub struct Tally {
    pub fired: u16,
    pub undone: u16,
    pub refused: u16,
}

// Which count a command adds to: any other number is refused.
const FIRED: u8 = 0;

const UNDONE: u8 = 1;

// One more; the highest count stays.
#[tactic(auto, unfolding(crate::specs::Counts::one_more))]
fn one_more(n: u16) -> u16
    ensures { result ≡ one_more n }
{
    n.saturating_add(1)
}

// The tally with one more in one count.
#[tactic(auto, unfolding(crate::specs::Counts::counted_of))]
pub fn counted(t: Tally, which: u8) -> Tally
    ensures { result ≡ counted_of t which }
{
    match which {
        FIRED => Tally {
            fired: one_more(t.fired),
            ..t
        },
        UNDONE => Tally {
            undone: one_more(t.undone),
            ..t
        },
        _ => Tally {
            refused: one_more(t.refused),
            ..t
        },
    }
}

// The lent tally gets one more in one count.
pub fn count(t: &mut Tally, which: u8)
    ensures { t.new ≡ counted_of t.old which }
{
    *t = counted(*t, which);
}
