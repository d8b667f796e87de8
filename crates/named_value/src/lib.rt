//! Types whose values have names, by which texts have them: a table each, and what follows from it.
#![tactic(auto)]

mod named;

pub use named::Named;
