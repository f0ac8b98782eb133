// A summary judged: well formed, or 6. Every class, row, class link and map entry is looked at once, and then each class link finds the two
// rows that it asks for by search. Leans on header, fields and matching for the tests, on links for the order of links.
#![tactic(auto)]

ghost use Rattle.std.specs.Prelude.{◌≡◌, true, false, ◌&&◌, length, MatchResult};
ghost use Rattle.meaning.specs.Count.{each, ascends};
ghost use Rattle.meaning.specs.WellFormed.{in_range, class_in, row_in, link_in, link_key, row_key, groups_used, well_formed};
ghost use Rattle.meaning.specs.SummaryFile.{summary_in, well_formed_file};
ghost use Rattle.header.specs.Keyed.{Keyed};
ghost use Rattle.header.specs.Limits.{Sized};

use fields::Rows;
use header::WellFormed;
use matching::Ordered;
use meaning::Refusal;
use names::Class;
use reader::Summary;
use seek::Ascending;

// "A summary is well formed when ..". If it is, the keys of its rows are left in `keys` for who reads on.
#[tactic(auto, using(crate::proofs::Laws::file))]
pub fn judge<'a>(s: &'a [u8], keys: &'a mut [u64]) -> Result<WellFormed<'a>, Refusal>
    requires { length keys.old ≡ 4096 }
    ensures { MatchResult result (λ read. read.summary.bytes.now ≡ s.now)
        (λ refusal. (refusal ≡ Refusal.Summary) × (well_formed_file s.now ≡ false)) }
{
    if let Some(summary) = header::read(s)
        && fine(&summary, keys)
    {
        let keys = Ascending {
            keys: &keys[..summary.rows()],
        };
        return Ok(WellFormed { summary, keys });
    }
    Err(Refusal::Summary)
}

// What is left once offsets and length are right.
#[tactic(auto, using(crate::proofs::Laws::parts))]
fn fine(s: &Summary, keys: &mut [u64]) -> bool
    requires { length keys.old ≡ 4096 }
    ensures { (result ≡ well_formed (summary_in s.now.bytes.now)) × Keyed result (summary_in s.now.bytes.now) keys.new }
{
    header::few(s)
        && range::in_range(s.level(), s.near_cap(), s.class_cap())
        && classes_fine(s)
        && rows_fine(s, keys)
        && links_fine(s)
        && fields::map_fine(s)
        && Ordered { summary: *s, keys }.rows_match()
}

// Group numbers and counts are in range, and "each group has a class".
#[tactic(auto, using(crate::proofs::Loops::classes))]
fn classes_fine(s: &Summary) -> bool
    requires { Sized s.now.bytes.now }
    ensures { result ≡ each (class_in (summary_in s.now.bytes.now)) (summary_in s.now.bytes.now).classes && groups_used
        (summary_in s.now.bytes.now) }
{
    let c = s.classes();
    let g = s.groups() as usize;
    if c < g {
        return false;
    }
    let mut used = [false; 1024];
    for k in 0..c {
        let class = Class(k as u16);
        if !fields::class_fine(s, class) {
            return false;
        }
        used[s.group(class).index()] = true;
    }
    seek::all_marked(&used[..g])
}

// "rows .. ascend as stated", and their numbers are in range: `least` is the least key that the next may have.
#[tactic(auto, using(crate::proofs::Loops::rows))]
fn rows_fine(s: &Summary, keys: &mut [u64]) -> bool
    requires { Sized s.now.bytes.now × (length keys.old ≡ 4096) }
    ensures { (result ≡ each (row_in (summary_in s.now.bytes.now)) (summary_in s.now.bytes.now).rows && ascends row_key
        (summary_in s.now.bytes.now).rows) × Keyed result (summary_in s.now.bytes.now) keys.new }
{
    let rows = Rows::of(s);
    let mut least = 0;
    for j in 0..s.rows() {
        if !rows.fine(j) {
            return false;
        }
        let key = rows.key(j);
        if key < least {
            return false;
        }
        keys[j] = key;
        least = key + 1;
    }
    true
}

// Class links are in range and ascend, as the links of a register do.
#[tactic(auto, using(crate::proofs::Laws::class_links))]
fn links_fine(s: &Summary) -> bool
    ensures { result ≡ each (link_in (length (summary_in s.now.bytes.now).classes)) (summary_in s.now.bytes.now).links && ascends link_key
        (summary_in s.now.bytes.now).links }
{
    links::fine(
        s.bytes,
        wire::two(s.bytes, 20) as usize,
        s.links(),
        s.classes(),
    )
}
