// The summary file, its writing half. Every field of the file is a two-byte number, or two of them: so a file is a list of numbers in
// five parts, header, classes, rows, class links, map, and each part is written by one loop. Leans on wire for the loop.
#![tactic(auto)]

ghost use Rattle.std.specs.Prelude.{◌≡◌, ◌≤◌, length};
ghost use Rattle.meaning.specs.Bytes.{put2, pack};
ghost use Rattle.meaning.specs.Answers.{into};
ghost use Rattle.said.specs.Written.{Gives};
ghost use Rattle.summary.specs.Numbers.{numbers, head_of};

use meaning::Refusal;

// How many numbers a class record, a row and a class link have.
pub const CLASS: usize = 4;

pub const ROW: usize = 4;

pub const EDGE: usize = 3;

// The five parts of a summary as they are written: the header's twelve numbers, and those of the four parts behind it.
#[derive(Clone, Copy)]
pub struct Parts<'a> {
    pub head: &'a [u16],
    pub classes: &'a [u16],
    pub rows: &'a [u16],
    pub edges: &'a [u16],
    pub map: &'a [u16],
    ghost few: { (length head.now ≡ 12) × (length classes.now ≤ 4096) × (length rows.now ≤ 16384) × (length edges.now ≤ 6144) × (length map.now ≤ 1024) },
}

// "9: output buffer shorter than the answer": no byte is written before it is known that all fit.
pub fn file(out: &mut [u8], of: &Parts) -> Result<usize, Refusal>
    ensures { Gives result out.old out.new
        (into (length out.old)
        (pack put2 (numbers of.now.head.now of.now.classes.now of.now.rows.now of.now.edges.now of.now.map.now))) }
{
    let long = 24 + 2 * (of.classes.len() + of.rows.len() + of.edges.len() + of.map.len());
    if out.len() < long {
        return Err(Refusal::Room);
    }
    wire::put_numbers(out, 0, of.head);
    let mut at = 24;
    wire::put_numbers(out, at, of.classes);
    at += 2 * of.classes.len();
    wire::put_numbers(out, at, of.rows);
    at += 2 * of.rows.len();
    wire::put_numbers(out, at, of.edges);
    at += 2 * of.edges.len();
    wire::put_numbers(out, at, of.map);
    Ok(long)
}

// What the header says besides the offsets.
#[derive(Clone, Copy)]
pub struct Counts {
    pub classes: u16,
    pub groups: u16,
    pub rows: u16,
    pub edges: u16,
    pub items: u16,
}

// "Header of 24 bytes: i, µ, ν, class count c, group count g, row count r, class-link count e, item count n, then four offsets".
pub fn head(level: u16, near: u16, class: u16, of: Counts) -> [u16; 12]
    requires { (of.classes ≤ 1024) × (of.rows ≤ 4096) × (of.edges ≤ 2048) }
    ensures { result ≡ head_of level near class of.classes of.groups of.rows of.edges of.items }
{
    let rows_at = 24 + 8 * of.classes;
    let edges_at = rows_at + 8 * of.rows;
    let map_at = edges_at + 6 * of.edges;
    [
        level, near, class, of.classes, of.groups, of.rows, of.edges, of.items, 24, rows_at,
        edges_at, map_at,
    ]
}
