//! The lines of a session: their words, what they say, and the one line in which a command is written.
//!
//! It stands on texts and on the words of filters, and knows nothing of records, names that live or files. Its one
//! promise: a line is read exactly where it is of the grammar, and else told by the first word that does not fit; what
//! is written for a command is read as that command.
#![tactic(auto)]

mod command;
mod count;
mod forms;
mod line;
mod line_refusal;
mod one_word;
mod opener;
mod parts;
mod print;
mod read;

pub use command::{Command, CommandForm};
pub use line_refusal::LineRefusal;
pub use print::print_command;
pub use read::read_command;
