// What the program prints, in document 01's words: "Fields: i, µ, ν, c, g, n; class, marks, group, count; row, edge and map fields in file
// order, `item` with its number before its class." Every number is read from the summary's file.
use meaning::Refusal;
use page::{Page, bytes};
use std::array;

// "A refusal prints the one line `refused` and the number."
pub fn refused(page: &mut Page, refusal: Refusal) {
    page.put(b"refused");
    page.field(meaning::number(refusal));
    page.line();
}

pub fn whole(page: &mut Page, s: &[u8]) {
    let [i, mu, nu, c, g, r, e, n] = header(s);
    let [class_part, row_part, edge_part, map] = parts(s);
    head(page, [i, mu, nu, c, g, n]);
    classes(page, class_part, c);
    rows(page, row_part, r);
    edges(page, edge_part, e);
    items(page, map, n);
}

// "i, µ, ν, class count c, group count g, row count r, class-link count e, item count n".
fn header(s: &[u8]) -> [u16; 8] {
    array::from_fn(|k| bytes::two(s, 2 * k))
}

// "then four offsets": the file from each of them on.
fn parts(s: &[u8]) -> [&[u8]; 4] {
    array::from_fn(|k| bytes::from(s, usize::from(bytes::two(s, 16 + 2 * k))))
}

fn head(page: &mut Page, fields: [u16; 6]) {
    page.put(b"summary");
    for field in fields {
        page.field(field);
    }
    page.line();
}

fn classes(page: &mut Page, part: &[u8], count: u16) {
    for (k, class) in (0..count).zip(part.chunks_exact(2 * summary::CLASS)) {
        page.put(b"class");
        page.field(k);
        page.field(bytes::four(class, 0));
        fields(page, bytes::from(class, 4));
        page.line();
    }
}

fn rows(page: &mut Page, part: &[u8], count: u16) {
    let records = part.chunks_exact(2 * summary::ROW);
    for row in records.take(usize::from(count)) {
        page.put(b"row");
        fields(page, row);
        page.line();
    }
}

fn edges(page: &mut Page, part: &[u8], count: u16) {
    let records = part.chunks_exact(2 * summary::EDGE);
    for edge in records.take(usize::from(count)) {
        page.put(b"edge");
        fields(page, edge);
        page.line();
    }
}

fn items(page: &mut Page, part: &[u8], count: u16) {
    for (x, class) in (0..count).zip(part.chunks_exact(2)) {
        page.put(b"item");
        page.field(x);
        fields(page, class);
        page.line();
    }
}

// All that stands there, two-byte numbers.
fn fields(page: &mut Page, b: &[u8]) {
    for n in b.chunks_exact(2) {
        page.field(bytes::two(n, 0));
    }
}
