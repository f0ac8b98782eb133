// A register and the summary that is proposed for it: what the parts of the check are handed. Leans on register and reader for the two.
#![tactic(auto)]

ghost use Rattle.proposed.specs.Proposed.{Proposed};

use reader::Summary;
use register::Register;

// The summary is well formed and has as many items as the register.
#[derive(Clone, Copy)]
pub struct Proposal<'a> {
    pub register: Register<'a>,
    pub summary: Summary<'a>,
    pub ghost proposed: { Proposed summary.bytes.now register.items },
}
