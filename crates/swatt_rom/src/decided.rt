ghost use Rattle.std.specs.Prelude.{◌≡◌, ◌≤◌, length, slice_index};
ghost use Rattle.part_definitions.specs.{Attestation.{decision_in, counter_word}, Metadata.{challenge_in, counter_in, token_in, little_endian}, Request.{request_decision, right_token}};

use crate::request_words::{REQUEST_WORDS, kept_bytes, key_bytes, metadata_bytes};
use hmac_core::{Digest32, request_token, same_bytes};

/// The decision of a call that attests.
pub const ATTESTS: u16 = 1;

// The decisions of calls that do not.
const COUNTER_IS_OLD: u16 = 2;

const TOKEN_DIFFERS: u16 = 3;

/// What a call has decided, with all that it goes on with: the words that it read, and the counter
/// that is kept from now on, its low word first.
#[derive(Clone, Copy, Debug)]
pub struct Decided {
    pub words: [u16; REQUEST_WORDS],
    pub counter: [u16; 2],
    pub decision: u16,
}

// The challenge of a request.
fn challenge_of(metadata: &[u8]) -> &[u8]
    requires { 32 ≤ length metadata.now }
    ensures { result.now ≡ challenge_in metadata.now }
{
    &metadata[..32]
}

// Its counter.
fn counter_of(metadata: &[u8]) -> &[u8]
    requires { length metadata.now ≡ 80 }
    ensures counter { result.now ≡ counter_in metadata.now }
    ensures length { length result.now ≡ 4 }
{
    &metadata[44..48]
}

// The token that it carries.
fn token_of(metadata: &[u8]) -> &[u8]
    requires { length metadata.now ≡ 80 }
    ensures token { result.now ≡ token_in metadata.now }
    ensures length { length result.now ≡ 32 }
{
    &metadata[48..]
}

// The token that a request with these metadata should carry.
fn right_token<D: Digest32>(key: &[u8], metadata: &[u8]) -> [u8; 32]
    requires { length metadata.now ≡ 80 }
    ensures { result ≡ right_token D.hash.digest_of key.now metadata.now }
{
    request_token::<D>(key, challenge_of(metadata), counter_of(metadata))
}

// The number of a counter, of its four bytes.
fn counter_number(bytes: &[u8]) -> u32
    requires { length bytes.now ≡ 4 }
    ensures { result ≡ little_endian bytes.now }
{
    u32::from_le_bytes([bytes[0], bytes[1], bytes[2], bytes[3]])
}

// What a call decides on a request where this counter is kept.
fn decision_on<D: Digest32>(key: &[u8], metadata: &[u8], kept: &[u8]) -> u16
    requires metadata { length metadata.now ≡ 80 }
    requires kept { length kept.now ≡ 4 }
    ensures { result ≡ request_decision D.hash.digest_of key.now metadata.now kept.now }
{
    let token = right_token::<D>(key, metadata);
    if !same_bytes(token_of(metadata), &token) {
        TOKEN_DIFFERS
    } else if counter_number(counter_of(metadata)) <= counter_number(kept) {
        COUNTER_IS_OLD
    } else {
        ATTESTS
    }
}

/// The decision of a call that read these words. Words 54 and 55 are the counter of the request,
/// the last two the kept one.
pub fn decide<D: Digest32>(words: [u16; REQUEST_WORDS]) -> Decided
    ensures words { result.words ≡ words }
    ensures decision { result.decision ≡ decision_in D.hash.digest_of words }
    ensures low { slice_index result.counter 0 ≡ counter_word words result.decision 0 }
    ensures high { slice_index result.counter 1 ≡ counter_word words result.decision 1 }
{
    let key = key_bytes(&words);
    let metadata = metadata_bytes(&words);
    let decision = decision_on::<D>(&key, &metadata, &kept_bytes(&words));
    Decided {
        words,
        counter: if decision == ATTESTS {
            [words[54], words[55]]
        } else {
            [words[72], words[73]]
        },
        decision,
    }
}
