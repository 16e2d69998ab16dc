// The sheet of a row, by its number 2: 0 to 4 sheets A to E; 5 one within a plan's counts, 6 one that has them.
// A and B are document 01's.
use case_tools::bytes::put_all;
use generated::plan::{plan_of, varied};
use generated::rows::SHEET;
use generated::sheets::write_sheet;
use oracle::sets::get;
use samples::{sheet_a, sheet_b};

// Sheet C has 3 places, 4 parts, all at 0, and no coupling. Step 0 takes parts 0 and 1 from 0 to 1, step 1 part 1 from 1 to 2 and part 2 from
// 0 to 1, step 2 part 2 from 1 to 2 and part 3 from 0 to 1, step 3 part 0 from 1 to 2, step 4 part 3 from 1 to 0, step 5 part 0 from 1 to 0
// and part 3 from 0 to 1, step 6 part 1 from 1 to 1.
const SHEET_C: &[u8] =
    b"\x01\x03\x04\x07\x28\x00\x04\x00\x2c\x00\x00\x00\x2c\x00\x09\x00\x35\x00\x09\x00\x3e\x00\x09\x00\x47\x00\x06\x00\x4d\x00\x06\x00\x53\x00\x09\x00\x5c\x00\x06\x00\x00\x00\x00\x00\x02\x00\x00\x01\x01\x00\x01\x00\x00\x02\x01\x01\x02\x02\x00\x01\x00\x00\x02\x02\x01\x02\x03\x00\x01\x00\x00\x01\x00\x01\x02\x00\x00\x01\x03\x01\x00\x00\x00\x02\x00\x01\x00\x03\x00\x01\x00\x00\x01\x01\x01\x01\x00\x00";

// Sheet D has 3 places, 6 parts, all at 0, and the start coupling 4-5. Step 0 takes parts 0 and 1 from 0 to 1, step 1 part 1 from 1 to 2
// and part 2 from 0 to 1, step 2 part 2 from 1 to 2 and part 3 from 0 to 1, step 3 part 3 from 1 to 2 and part 4 from 0 to 1, step 4 part 5
// from 1 to 1, step 5 part 0 from 0 to 0, step 6 part 0 from 1 to 1, step 7 parts 4 and 5 from 0 to 0, and uncouples them, step 8 part 5
// from 0 to 0, step 9 part 3 from 0 to 0.
const SHEET_D: &[u8] =
    b"\x01\x03\x06\x0a\x34\x00\x06\x00\x3a\x00\x02\x00\x3c\x00\x09\x00\x45\x00\x09\x00\x4e\x00\x09\x00\x57\x00\x09\x00\x60\x00\x06\x00\x66\x00\x06\x00\x6c\x00\x06\x00\x72\x00\x0b\x00\x7d\x00\x06\x00\x83\x00\x06\x00\x00\x00\x00\x00\x00\x00\x04\x05\x02\x00\x00\x01\x01\x00\x01\x00\x00\x02\x01\x01\x02\x02\x00\x01\x00\x00\x02\x02\x01\x02\x03\x00\x01\x00\x00\x02\x03\x01\x02\x04\x00\x01\x00\x00\x01\x05\x01\x01\x00\x00\x01\x00\x00\x00\x00\x00\x01\x00\x01\x01\x00\x00\x02\x04\x00\x00\x05\x00\x00\x01\x04\x05\x00\x01\x05\x00\x00\x00\x00\x01\x03\x00\x00\x00\x00";

// Sheet E has 2 places, 5 parts, all at 0, and the start coupling 3-4. Step 0 takes part 0 from 1 to 1, step 1 part 1 from 0 to 0, step 2 part
// 2 from 0 to 0, step 3 parts 1 and 2 from 0 to 0, step 4 part 3 from 0 to 0, step 5 part 0 from 0 to 1, step 6 parts 3 and 4 from 0 to 0, and
// uncouples them, step 7 part 4 from 0 to 0, step 8 parts 3 and 4 from 0 to 0, and couples them.
const SHEET_E: &[u8] =
    b"\x01\x02\x05\x09\x30\x00\x05\x00\x35\x00\x02\x00\x37\x00\x06\x00\x3d\x00\x06\x00\x43\x00\x06\x00\x49\x00\x09\x00\x52\x00\x06\x00\x58\x00\x06\x00\x5e\x00\x0b\x00\x69\x00\x06\x00\x6f\x00\x0b\x00\x00\x00\x00\x00\x00\x03\x04\x01\x00\x01\x01\x00\x00\x01\x01\x00\x00\x00\x00\x01\x02\x00\x00\x00\x00\x02\x01\x00\x00\x02\x00\x00\x00\x00\x01\x03\x00\x00\x00\x00\x01\x00\x00\x01\x00\x00\x02\x03\x00\x00\x04\x00\x00\x01\x03\x04\x00\x01\x04\x00\x00\x00\x00\x02\x03\x00\x00\x04\x00\x00\x00\x01\x03\x04";

// Answers the length.
fn put_sample(buf: &mut [u8], sample: &[u8]) -> usize {
    put_all(buf, 0, sample);
    sample.len()
}

// The sheet of a session; answers its length.
pub fn write_one(buf: &mut [u8], w: &[u64], seed: u64) -> usize {
    let p = plan_of(w);
    match get(w, SHEET) {
        0 => put_sample(buf, &sheet_a()),
        1 => put_sample(buf, &sheet_b()),
        2 => put_sample(buf, SHEET_C),
        3 => put_sample(buf, SHEET_D),
        4 => put_sample(buf, SHEET_E),
        5 => write_sheet(buf, varied(p, seed), seed),
        _ => write_sheet(buf, p, seed),
    }
}
