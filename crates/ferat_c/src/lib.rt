// The library for other languages: the checks, the list of checks and the call for a line's bytes.
#![tactic(auto)]

mod check;
mod check_ferp;
mod line;
mod list;

pub use check::hutsvida_check;
pub use check_ferp::hutsvida_check_ferp;
pub use line::hutsvida_line;
pub use list::hutsvida_check_all;
