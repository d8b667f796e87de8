//! The flags of a run of the executable region: EXEC (APEX, USENIX Security 2020), a proof that it
//! ran from its first instruction on, whole and undisturbed, and that its output is what it left;
//! and AUX, in which interrupts are allowed whose handlers lie in the region (in the manner of
//! ASAP, DAC 2022).
//!
//! A flag of a run ([`RunFlag`]) is, after every list of records, each seen with the bounds as they
//! stood before it, set exactly where one of them starts a run and neither it nor a later one
//! clears the flag. What clears it is the flag's own ([`Conditions`]).
#![tactic(auto)]

mod aux_clearing;
mod aux_flag;
mod clearing;
mod conditions;
mod exec_flag;
mod law;
mod quiet;
mod run_flag;
mod start;

pub use aux_flag::{AuxConditions, AuxFlag};
pub use clearing::{clears_both, enters_region, has_write_to, runs_inside, writes_to};
pub use conditions::Conditions;
pub use exec_flag::{ExecConditions, ExecFlag};
pub use law::flag_is_set_by_an_uncleared_start;
pub use quiet::is_quiet;
pub use run_flag::RunFlag;
pub use start::{fetches_first, starts_run};
