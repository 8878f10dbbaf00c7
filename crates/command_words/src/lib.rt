//! The words of a command line, and the command that they are.
//!
//! A program hands its words to [`command_of`], and does what they ask for:
//!
//!     // The name of the day that is to be planned, if one is.
//!     fn day_to_plan(alloc: Global, words: &[String]) -> Result<Option<&str>, OutOfMemory> {
//!         match command_of(alloc, words)? {
//!             Some(Command::Plan { name, .. }) => Ok(Some(name)),
//!             _ => Ok(None),
//!         }
//!     }
//!
//! What words ask for is said in `specs/Words.antt`: the clause `asked` says that the command is
//! that, and that there is none for any other words; `may` says how many nodes a search may have,
//! and how many flights a day that is made.
//!
//! `clap` reads the words, and the names and numbers of a command are those of its matches. It
//! would also take words that are no command here, as `--nodes=5` or `-- day.csv`, so the form of
//! the words is tested before (`specs/Form.antt`). What `clap` is told of the commands is said in
//! `specs/Lines.antt`, and what its matches tell in `specs/Reading.antt`. It is proved that it
//! takes all words of that form where there is memory, and that its matches tell what they ask for.
//!
//! Memory: the commands as `clap` knows them, and its matches, which grow with the number of words.
//! Time: with the number of words.
#![tactic(auto)]

mod command;
mod form;
mod line;
mod options;
mod reading;

pub use command::{Command, SearchLimits, View, command_of};
