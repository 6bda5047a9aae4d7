// The judging of what is stored already, from one progress to the next. Nothing here knows of text.
#![tactic(auto)]

mod additions;
mod deletions;
mod expansions;

pub use additions::add;
pub use deletions::delete;
pub use expansions::expand;
