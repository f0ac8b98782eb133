// The commands that make the proved calls, on the kept files, and what is told of them: a letter, or an answer of three words.
use meaning::Refusal;
use page::Page;
use trial_cases::command::Caps;
use trial_cases::file::SIZE;
use trial_cases::kept::Kept;
use trial_cases::told::Told;
use trial_cases::{Stopped, lent};

// "`y` or `n` for what a check or a question says, or the digit of the refusal".
fn letter(said: Result<bool, Refusal>) -> u8 {
    match said {
        Ok(true) => b'y',
        Ok(false) => b'n',
        Err(refusal) => b'0' + meaning::number(refusal) % 10,
    }
}

pub fn check(kept: &Kept, told: &mut Told) {
    told.hear(letter(hestovane::check(kept.register().bytes(), kept.summary.bytes())));
}

pub fn ask_register(kept: &Kept, told: &mut Told, times: u8) {
    in_turn(kept.item, times, told, |item| {
        hestovane::ask_register(kept.register().bytes(), kept.question.bytes(), item)
    });
}

pub fn ask_summary(kept: &Kept, told: &mut Told, times: u8) {
    in_turn(kept.item, times, told, |item| {
        hestovane::ask_summary(kept.summary.bytes(), kept.question.bytes(), item)
    });
}

// "asked .. at k items in turn, from the item number on".
fn in_turn<F: Fn(u16) -> Result<bool, Refusal>>(item: u16, times: u8, told: &mut Told, ask: F)
    requires { F.IsAlwaysCallable ask }
{
    for k in 0..times {
        told.hear(letter(ask(item.wrapping_add(u16::from(k)))));
    }
}

// "the byte at the place of the question becomes 0, 1, .. 255 in turn, and after each the question is asked".
pub fn sweep(kept: &mut Kept, told: &mut Told, place: u16) -> Result<(), Stopped> {
    for value in 0..=255 {
        kept.question.set(place, value)?;
        ask_register(kept, told, 1);
    }
    Ok(())
}

pub fn judge(kept: &Kept, told: &mut Told) {
    match register::judge(kept.register().bytes()) {
        Ok(register) => {
            told.page.put(b"accepted");
            told.page.field(register.items as u64);
            told.page.field(register.links as u64);
        }
        Err(refusal) => tell_refused(&mut told.page, refusal),
    }
}

fn tell_refused(page: &mut Page, refusal: Refusal) {
    page.put(b"refused");
    page.field(meaning::number(refusal));
}

pub fn condense(kept: &Kept, told: &mut Told) {
    answer(kept.room, told, |out| condensed(kept, out));
}

// "condensed at level and caps".
fn condensed(kept: &Kept, out: &mut [u8]) -> Result<usize, Refusal> {
    let Caps { level, mu, nu } = kept.caps;
    hestovane::condense(kept.register().bytes(), level, mu, nu, out)
}

pub fn list(kept: &Kept, told: &mut Told) {
    answer(kept.room, told, |out| {
        hestovane::list(kept.summary.bytes(), kept.question.bytes(), out)
    });
}

// "into a buffer of `room` bytes".
fn answer<F: FnOnce(&mut [u8]) -> Result<usize, Refusal>>(room: u16, told: &mut Told, call: F)
    requires { F.IsAlwaysCallable call }
{
    let mut out = [0u8; SIZE];
    let out = &mut out[..usize::from(room)];
    lent::fill(out);
    let wrote = call(out);
    tell_wrote(&mut told.page, wrote);
    told.page.field(lent::hash(out));
}

fn tell_wrote(page: &mut Page, wrote: Result<usize, Refusal>) {
    match wrote {
        Ok(length) => {
            page.put(b"wrote");
            page.field(length as u64);
        }
        Err(refusal) => tell_refused(page, refusal),
    }
}

// "the summary becomes what condensing the register at level and caps writes, and empty where that is refused".
pub fn make(kept: &mut Kept) {
    let mut out = [0u8; SIZE];
    let wrote = condensed(kept, &mut out);
    kept.summary.hold(&out, length(wrote));
}

fn length(wrote: Result<usize, Refusal>) -> u16 {
    wrote.map_or(0, |length| length.min(65535) as u16)
}
