// A certificate of whatever kind: its lines one after the other, and the check of both files.
#![tactic(auto)]

mod checking;
mod kind;
mod lines_read;

pub use checking::{Checker, check};
pub use kind::Kind;
pub use lines_read::read_certificate;
