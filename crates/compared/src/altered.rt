// Records with one entry changed, which are not sound: a command is refused as 10 with the very record, and so is the question of the row's
// kind. On a sheet that is too short 1 comes first. What differs is a sum of the question's own numbers, 4,096 for the answer to the
// command, and 8,192 for the record after it.
use crate::asking::ask;
use ask_tools::altered::{WAYS, altered};
use ask_tools::both::Both;
use case_records::heard::{begun, commanded};
use case_records::same_record;
use case_tools::counts::{ALTERED, judged, more, unless};
use generated::rows::part;
use oracle::REFUSED;
use oracle::reader::count;
use session::Record;

// A command of kind 1, 2 or 3.
fn command_differs(r: Record, sheet: &[u8], p: usize) -> u64 {
    let bytes = [(p % 3 + 1) as u8, 0, 0];
    let heard = commanded(r, sheet, &bytes, begun(0));
    let answer = unless(heard.said == oracle::reply(REFUSED, 10), 4096);
    answer | unless(same_record(r, heard.session), 8192)
}

fn hold(c: &mut [u64], w: &[u64], b: &Both, p: usize) {
    let cut = Both {
        sheet: part(b.sheet, 0, 3),
        ..*b
    };
    let short = ask(c, w, &cut, p, Some(1));
    let asked = ask(c, w, b, p, Some(10));
    let what = command_differs(b.record, b.sheet, p) | short | asked;
    more(c, ALTERED, 1, what == 0);
    judged(c, p as u64, 0, 0, what);
}

// Every way at every part, and at one more, which is part 0 again where there are 64. A record that is what it was is not counted.
pub fn each_altered(c: &mut [u64], w: &[u64], b: &Both) {
    for p in 0..count(b.sheet, 2) + 1 {
        for way in WAYS {
            let record = altered(b.record, &b.state, way, p);
            if !same_record(b.record, record) {
                hold(c, w, &Both { record, ..*b }, p);
            }
        }
    }
}
