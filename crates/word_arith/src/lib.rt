//! Arithmetic of the 16-bit processor: operand sizes, results and flags.
//!
//! The behaviour is that of the MSP430x1xx Family User's Guide (SLAU049, the chapter on the 16-bit
//! RISC CPU). Each call has one contract: its result and flags are those that `specs/` states as
//! sums and remainders of whole numbers.
#![tactic(auto)]

mod alu_result;
mod decimal_sum;
mod flags;
mod law;
mod op1;
mod op2;
mod shift_result;
mod size;
mod sum;

pub use alu_result::alu;
pub use decimal_sum::bcd_add;
pub use flags::Flags;
pub use law::{comparison_orders, decimal_sum_is_of_numbers, overflow_is_signed};
pub use op1::Op1;
pub use op2::Op2;
pub use shift_result::shift;
pub use size::Size;
