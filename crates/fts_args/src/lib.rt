//! The program's command line: what its words ask for.
//!
//! [`command_of`] answers the command that the words behind the program's name ask for: of
//! `shop create --columns body` it is `Command::Create` with the settings that the options name, of
//! `shop run` it is `Command::Run`, of `shop serve` it is `Command::Serve`, of `shop gen 1 5` it is
//! `Command::Gen`, and of any other words there is none. The words are read by [`clap`], from the
//! description of the command line that stands in `src/line.rt`. The grammar is in
//! `docs/LANGUAGE.md`, "The command line".
//!
//! It costs a few passes over the words, once.
#![tactic(auto)]

mod asked;
mod columns;
mod command;
mod line;
mod options;

pub use asked::command_of;
pub use command::Command;
