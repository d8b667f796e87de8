//! The verifier: policies, the verdict on a report, and pairs of lists that collide.
//!
//! A verifier has the device's key, the image that the device shall run, and a policy: the bounds
//! that a report shall name, the flag that it shall have, and the requests that were sent.
//! [`verdict_of`] gives the first verdict that holds; a report is accepted exactly where it meets
//! the policy and its MAC is the one that VRASED (USENIX Security 2019) and APEX (2020) prescribe.
//! [`exhibit`] shows what it would take to be wrong: two unequal lists with equal digests.
//!
//! In version 1 a request is a challenge. In version 2 it carries a counter and a [`token`] too,
//! which are among the metadata that a report's MAC is of.
#![tactic(auto)]

mod asked;
mod byte_list;
mod collision;
mod comparison;
mod draft;
mod evidence;
mod expect;
mod expected_mac;
mod flag_kind;
mod image_code;
mod law;
mod metadata;
mod policy;
mod policy_line;
mod policy_reader;
mod request_token;
mod validity;
mod verdict;
mod verifier;

pub use asked::Asked;
pub use collision::exhibit;
pub use comparison::compare;
pub use evidence::Exhibit;
pub use expect::Expect;
pub use flag_kind::FlagKind;
pub use law::{
    accept_is_of_expected_bytes, bytes_alone_collide, one_mac_gives_collision,
    policies_have_valid_bounds,
};
pub use policy::Policy;
pub use policy_reader::read_policy;
pub use request_token::token;
pub use validity::valid_for;
pub use verdict::{Verdict, verdict_by, verdict_of};
pub use verifier::Verifier;
