//! The attestation ROM: a call of it as a sequence of bus steps, in place of machine code.
//!
//! What a call does is VRASED's software attestation (USENIX Security 2019) over the metadata and
//! the regions of APEX (USENIX Security 2020), with HMAC (RFC 2104) over any digest of 32 bytes.
//! The one contract is that whatever it reads the engine asks for the definition's next access.
#![tactic(auto)]

mod call_end;
mod decided;
mod digest_words;
mod phase;
mod region_words;
mod request_words;
mod rom;
mod state;
mod word_bytes;

pub use call_end::CallEnd;
pub use decided::ATTESTS;
pub use rom::Rom;
