// The static library: the five functions of include/hestovane.h, each one call of hestovane's function of its name and with its clauses.
#![tactic(auto)]

ghost use Rattle.std.specs.Prelude.{◌≡◌, length};
ghost use Rattle.meaning.specs.Answers.{returned, code, left};
ghost use Rattle.meaning.specs.Answers as answers;

#[unsafe(no_mangle)]
pub extern "C" fn hestovane_condense(i: u16, mu: u16, nu: u16, reg: &[u8], out: &mut [u8]) -> i32
    ensures value { result ≡ code (returned (answers.condense i mu nu reg.now (length out.old))) }
    ensures out_after { out.new ≡ left (answers.condense i mu nu reg.now (length out.old)) out.old }
{
    hestovane::hestovane_condense(i, mu, nu, reg, out)
}

#[unsafe(no_mangle)]
pub extern "C" fn hestovane_check(reg: &[u8], s: &[u8]) -> i32
    ensures { result ≡ code (returned (answers.check reg.now s.now)) }
{
    hestovane::hestovane_check(reg, s)
}

#[unsafe(no_mangle)]
pub extern "C" fn hestovane_ask_register(reg: &[u8], q: &[u8], item: u16) -> i32
    ensures { result ≡ code (returned (answers.ask_register reg.now q.now item)) }
{
    hestovane::hestovane_ask_register(reg, q, item)
}

#[unsafe(no_mangle)]
pub extern "C" fn hestovane_ask_summary(s: &[u8], q: &[u8], item: u16) -> i32
    ensures { result ≡ code (returned (answers.ask_summary s.now q.now item)) }
{
    hestovane::hestovane_ask_summary(s, q, item)
}

#[unsafe(no_mangle)]
pub extern "C" fn hestovane_list(s: &[u8], q: &[u8], out: &mut [u8]) -> i32
    ensures value { result ≡ code (returned (answers.list s.now q.now (length out.old))) }
    ensures out_after { out.new ≡ left (answers.list s.now q.now (length out.old)) out.old }
{
    hestovane::hestovane_list(s, q, out)
}
