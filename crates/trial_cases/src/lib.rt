// What the trial is built with: its input taken command by command, what is kept between commands, what is told. Nothing here is promised
// to a user; it is proved safe as everything is.
#![tactic(auto)]

pub mod command;
pub mod file;
pub mod input;
pub mod kept;
pub mod lent;
pub mod told;

// "A list of commands that is none (an unknown command, one cut short, a place or `out` beyond the end of a file, a file that would grow
// beyond 65,535 bytes) ends the trial at that command".
#[derive(Clone, Copy)]
pub struct Stopped;
