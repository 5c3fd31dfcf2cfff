//! What words and faults give: a status and all bytes, written by hand from the rules, and by subject. What sessions give on
//! files stands in the folder tests/ of the repository, as files.
//!
//! Each table has a case a line, or a few: first the name, which says what the case shows and which a failure prints.
//! The tables are statics, since those cost the proof of a test function the least.
mod case;
mod faults;
mod words;
