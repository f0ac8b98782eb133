// Carries out the commands of docs/CASES.md that stand on standard input, through the proved calls, and prints what they answer. `stdin`
// here was written by the second program, and `stdout` is what that one's own code says of the same cases. Leans on trial_cases.
#![tactic(auto)]

mod calls;

use trial_cases::Stopped;
use trial_cases::command::Command;
use trial_cases::input::Input;
use trial_cases::kept::Kept;
use trial_cases::told::Told;

// More commands than any input has: nothing else says that an input ends.
const MOST: u64 = 1099511627776;

fn main() {
    let mut input = Input::new();
    let mut kept = Kept::new();
    let mut told = Told::new();
    if run(&mut input, &mut kept, &mut told).is_err() {
        // "ends the trial at that command with the line `stopped`, right behind what was printed so far".
        told.page.put(b"stopped\n");
    }
    told.page.write();
}

// Command after command, to the end of the input.
fn run(input: &mut Input, kept: &mut Kept, told: &mut Told) -> Result<(), Stopped> {
    for _ in 0..MOST {
        let mut unread = input.unread();
        if unread.bytes.is_empty() {
            return Ok(());
        }
        let command = Command::read(&mut unread).ok_or(Stopped)?;
        let left = unread.bytes.len();
        carry_out(command, kept, told)?;
        input.leave(left);
    }
    Err(Stopped)
}

// "nothing of that command is carried out" where it is none.
fn carry_out(command: Command, kept: &mut Kept, told: &mut Told) -> Result<(), Stopped> {
    match command {
        Command::Text(text) => told.page.put(text),
        Command::EndOfLine => told.page.line(),
        Command::Change(which, change) => kept.file(which).change(change)?,
        Command::Byte(which, place, byte) => kept.file(which).set(place, byte)?,
        Command::Exchange => kept.exchange(),
        Command::Item(item) => kept.item = item,
        Command::Caps(caps) => kept.caps = caps,
        Command::Room(room) => kept.room = room,
        Command::Make => calls::make(kept),
        Command::Judge => calls::judge(kept, told),
        Command::Condense => calls::condense(kept, told),
        Command::Check => calls::check(kept, told),
        Command::AskRegister(times) => calls::ask_register(kept, told, times),
        Command::AskSummary(times) => calls::ask_summary(kept, told, times),
        Command::List => calls::list(kept, told),
        Command::Sweep(place) => calls::sweep(kept, told, place)?,
        Command::OpenTally => told.open(),
        Command::CloseTally => told.close(),
    }
    Ok(())
}
