// The check of a proposed summary, in document 01's order: item counts, marks, class counts, class links, rows. "Any grouping and
// numbering may be proposed, and the level field is not judged." Leans on counted, images and rowwise for its parts.
#![tactic(auto)]

ghost use Rattle.std.specs.Prelude.{◌≡◌};
ghost use Rattle.meaning.specs.Check.{fits};
ghost use Rattle.meaning.specs.RegisterFile.{register_in};
ghost use Rattle.meaning.specs.SummaryFile.{summary_in};

use header::WellFormed;
use proposed::Proposal;
use register::Register;

// Whether the proposed map is an abstraction of the register: for any grouping and numbering, and whatever the level field says.
#[tactic(auto, using(proposed::proofs::Laws::proposed), unfolding(meaning::specs::Check::fits))]
pub fn check(reg: &Register, s: &WellFormed) -> bool
    ensures { result ≡ fits (register_in reg.now.bytes.now) (summary_in s.now.summary.bytes.now) }
{
    if s.summary.items() != reg.items {
        return false;
    }
    let proposal = Proposal {
        register: *reg,
        summary: s.summary,
    };
    let mu = s.summary.near_cap() as u8;
    let nu = s.summary.class_cap() as u8;
    if !counted::marks_equal(&proposal) {
        return false;
    }
    if !counted::counts_equal(reg.items, &s.summary, nu) {
        return false;
    }
    if !images::links_are_images(&proposal) {
        return false;
    }
    rowwise::rows_equal(reg, s, mu)
}
