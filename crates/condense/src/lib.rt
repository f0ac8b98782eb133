// A register condensed: its classes level by level, then the five parts of the summary, then the file. Leans on alike for the classes,
// on classes, filed and edges for the parts, on summary for the file.
#![tactic(auto)]

ghost use Rattle.std.specs.Prelude.{◌≡◌, ◌≤◌, length};
ghost use Rattle.meaning.specs.Condense.{summary_by, summary_of};
ghost use Rattle.meaning.specs.RegisterFile.{register_in};
ghost use Rattle.meaning.specs.SummaryFile.{summary_bytes};
ghost use Rattle.meaning.specs.Answers.{into};
ghost use Rattle.said.specs.Written.{Gives};
ghost use Rattle.condense.specs.Classed.{Classed};

use meaning::Refusal;
use register::Register;
use summary::Parts;

// The level and the caps that are wanted: i, µ and ν.
#[derive(Clone, Copy)]
pub struct Wanted {
    pub level: u16,
    pub near_cap: u8,
    pub class_cap: u8,
}

// "The classes of a summary are those of level i; its groups are those of level i − 1": 9, or its bytes.
pub fn condense(reg: &Register, wanted: Wanted, out: &mut [u8]) -> Result<usize, Refusal>
    requires { (1 ≤ wanted.level) × (wanted.near_cap ≤ 7) }
    ensures { Gives result out.old out.new
        (into (length out.old) (summary_bytes (summary_of wanted.level wanted.near_cap wanted.class_cap (register_in reg.now.bytes.now)))) }
{
    let mut groups = [0u16; 1024];
    let mut map = [0u16; 1024];
    condense_in(
        reg,
        wanted,
        &mut groups[..reg.items],
        &mut map[..reg.items],
        out,
    )
}

// The same, with room lent for the group and for the class of each item.
fn condense_in(
    reg: &Register,
    wanted: Wanted,
    groups: &mut [u16],
    map: &mut [u16],
    out: &mut [u8],
) -> Result<usize, Refusal>
    requires { (1 ≤ wanted.level) × (wanted.near_cap ≤ 7) × (length groups.old ≡ reg.now.items) × (length map.old ≡ reg.now.items) }
    ensures { Gives result out.old out.new
        (into (length out.old) (summary_bytes (summary_of wanted.level wanted.near_cap wanted.class_cap (register_in reg.now.bytes.now)))) }
{
    let mut words = [0u64; 4096];
    let mut starts = [0u16; 1025];
    let counts = alike::levels(
        reg,
        wanted.near_cap,
        wanted.level as usize,
        groups,
        map,
        &mut words,
        &mut starts,
    );
    let items = Classified {
        counts,
        groups: &*groups,
        map,
        starts: &starts,
        words: &words,
    };
    put_summary(reg, wanted, &items, out)
}

// The group and the class of each item, how many there are of each, and the rows of the items.
#[derive(Clone, Copy)]
struct Classified<'a> {
    counts: alike::Counts,
    groups: &'a [u16],
    map: &'a [u16],
    starts: &'a [u16],
    words: &'a [u64],
}

// The summary with these groups, and with these classes of some level.
fn put_summary(
    reg: &Register,
    wanted: Wanted,
    items: &Classified,
    out: &mut [u8],
) -> Result<usize, Refusal>
    requires { Classed reg.now.bytes.now reg.now.items reg.now.links wanted.near_cap items.now.counts.groups items.now.counts.classes
        items.now.groups.now items.now.map.now items.now.starts.now items.now.words.now }
    ensures { Gives result out.old out.new (into (length out.old) (summary_bytes
        (summary_by wanted.near_cap wanted.class_cap (register_in reg.now.bytes.now) items.now.groups.now items.now.map.now wanted.level))) }
{
    let classes = classes::records(reg, items.groups, items.map, wanted.class_cap);
    let mut rows = [0u16; 16384];
    let r = filed::row_numbers(items.map, items.starts, items.words, &mut rows);
    let mut edges = [0u16; 6144];
    let e = edges::class_links(reg, items.map, &mut edges);
    let of = summary::Counts {
        classes: items.counts.classes as u16,
        groups: items.counts.groups as u16,
        rows: r as u16,
        edges: e as u16,
        items: reg.items as u16,
    };
    let near = wanted.near_cap as u16;
    let class = wanted.class_cap as u16;
    let head = summary::head(wanted.level, near, class, of);
    let parts = Parts {
        head: &head,
        classes: &classes[..summary::CLASS * items.counts.classes],
        rows: &rows[..summary::ROW * r],
        edges: &edges[..summary::EDGE * e],
        map: items.map,
    };
    summary::file(out, &parts)
}
