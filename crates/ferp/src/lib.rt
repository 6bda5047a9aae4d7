// The check of a FERP certificate: its text, line by line, and both files.
#![tactic(auto)]

mod certificate;
mod checking;
mod clause_lines;
mod mapping_lines;

pub use checking::check;
