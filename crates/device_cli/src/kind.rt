pub mod reports;
pub mod source;
pub mod trace;
