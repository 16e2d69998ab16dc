// Each command by the customer's single call, which checks the sheet and the whole record each time.
use crate::sum::{ZERO, print_sum, summed};
use session::command_with;
use session_start::start;

// All commands, from a fresh record and a tally of zeros.
pub fn run_singly(sheet: &[u8], commands: &[u8]) {
    let mut session = start(sheet).session;
    let mut counts = ZERO;
    let mut sum = 0;
    for bytes in commands.chunks(3) {
        let done = command_with(session, sheet, bytes, counts);
        sum = summed(sum, done.outcome.key.0);
        session = done.outcome.session;
        counts = done.tally;
    }
    print_sum(sum, counts);
}
