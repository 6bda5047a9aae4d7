// The check of a FERAT certificate: its text, line by line, and both files.
#![tactic(auto)]

mod certificate;
mod checking;
mod clause_lines;
mod deletion_lines;
mod hint_lines;
mod mapping_lines;

pub use checking::check;
