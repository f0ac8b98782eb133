// The header of a summary judged: offsets and length, and the four sizes; and what a summary is once all of it is judged. Leans on reader
// for the file's numbers, on summary for the sizes of its records.
#![tactic(auto)]

ghost use Rattle.std.specs.Prelude.{◌≡◌, true, false, MatchOption};
ghost use Rattle.meaning.specs.WellFormed.{sizes};
ghost use Rattle.meaning.specs.SummaryFile as file;
ghost use Rattle.meaning.specs.SummaryFile.{summary_in};
ghost use Rattle.header.specs.Keyed.{row_keys};

use reader::Summary;
use seek::Ascending;

// A summary that is well formed, and the keys of its rows: who judged it has left them for who reads on.
#[derive(Clone, Copy)]
pub struct WellFormed<'a> {
    pub summary: Summary<'a>,
    pub keys: Ascending<'a>,
    ghost well: { file.well_formed_file summary.bytes.now ≡ true },
    ghost keyed: { keys.keys.now ≡ row_keys (summary_in summary.bytes.now) },
}

// The bytes as a summary, if they can be one.
pub fn read(s: &[u8]) -> Option<Summary<'_>>
    ensures { MatchOption result (file.exact s.now ≡ false) (λ read. read.bytes.now ≡ s.now) }
{
    if exact(s) {
        Some(Summary { bytes: s })
    } else {
        None
    }
}

// "there are 24 bytes or more; offsets and length are exact".
#[tactic(auto, unfolding(meaning::specs::SummaryFile::exact))]
pub fn exact(s: &[u8]) -> bool
    ensures { result ≡ file.exact s.now }
{
    if s.len() < 24 {
        return false;
    }
    let rows = 24 + 2 * summary::CLASS * wire::two(s, 6) as usize;
    let links = rows + 2 * summary::ROW * wire::two(s, 10) as usize;
    let map = links + 2 * summary::EDGE * wire::two(s, 12) as usize;
    wire::two(s, 16) == 24
        && wire::two(s, 18) as usize == rows
        && wire::two(s, 20) as usize == links
        && wire::two(s, 22) as usize == map
        && s.len() == map + 2 * wire::two(s, 14) as usize
}

// "c, n ≤ 1,024, r ≤ 4,096, e ≤ 2,048".
#[tactic(auto, unfolding(meaning::specs::WellFormed::sizes))]
pub fn few(s: &Summary) -> bool
    ensures { result ≡ sizes (summary_in s.now.bytes.now) }
{
    s.classes() <= 1024 && s.items() <= 1024 && s.rows() <= 4096 && s.links() <= 2048
}
