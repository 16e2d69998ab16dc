// A ruled page of a record's live firings, and a row of it, as answers (document 02, T-01). The page is the customer's call.
use crate::part::{between, front};
use crate::put::Text;
use net::Verdict;
use page::{lendable, page_of};
use questions::live_firings;
use session::Record;

const PAGE: usize = 2091;

// A page ends with a newline, and each of its lines has 41 bytes with its own.
const LINE: usize = 41;

fn accepted(answer: Verdict) -> Result<(), u8> {
    match answer {
        Verdict::Accepted => Ok(()),
        Verdict::Refused(n) => Err(n),
    }
}

// The page of the record's live firings; or the number that it is refused by.
fn page_into(r: Record, sheet: &[u8], number: u16, text: &mut [u8]) -> Result<(), u8> {
    let l = live_firings(r, sheet);
    accepted(l.answer)?;
    accepted(page_of(lendable(l.firings), l.count, number, text))
}

// `page N` and the page's lines, without the last newline; or `refused N`.
pub fn put_page(out: &mut Text, r: Record, sheet: &[u8], number: u16) {
    let mut text = [0; PAGE];
    match page_into(r, sheet, number, &mut text) {
        Ok(()) => {
            out.put_count("page", number);
            out.put(b'\n');
            out.put_text(front(&text, PAGE - 1));
        }
        Err(refusal) => out.put_refusal(refusal),
    }
}

// `row` and what line i of the page has, from 1; or `refused N`.
pub fn put_row(out: &mut Text, r: Record, sheet: &[u8], number: u16, i: u16) {
    let mut text = [0; PAGE];
    match page_into(r, sheet, number, &mut text) {
        Ok(()) => {
            let to = LINE * usize::from(i);
            out.put_text(b"row ");
            if LINE <= to {
                out.put_text(between(&text, to - LINE, to - 1));
            }
        }
        Err(refusal) => out.put_refusal(refusal),
    }
}
