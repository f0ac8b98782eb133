// The condensing program of document 01's Examples: it reads i, µ, ν as two-byte numbers and then the register from standard input, and
// prints the summary's listing, or the one line `refused` and the number. Leans on hestovane's condense; the listing is read back from the file.
#![tactic(auto)]

use meaning::Refusal;
use page::{Page, bytes};

mod listing;

fn main() {
    let mut page = Page::new();
    let mut asked = [0u8; 6];
    if io::read_full(0, &mut asked) < asked.len() {
        // "Input under six bytes is refused 1."
        listing::refused(&mut page, Refusal::Header);
    } else {
        answer(&mut page, &asked);
    }
    page.write();
}

// The rest of the input is the register; with the six bytes before it "at most 16,403 bytes are read", one more than an accepted register has.
fn answer(page: &mut Page, asked: &[u8; 6]) {
    let mut reg = [0u8; 16397];
    let len = io::read_full(0, &mut reg);
    let mut out = [0u8; 55320];
    let i = bytes::two(asked, 0);
    let mu = bytes::two(asked, 2);
    let nu = bytes::two(asked, 4);
    match hestovane::condense(&reg[..len], i, mu, nu, &mut out) {
        Ok(_) => listing::whole(page, &out),
        Err(refusal) => listing::refused(page, refusal),
    }
}
