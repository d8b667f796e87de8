ghost use Rattle.std.specs.Prelude.{◌≡◌, ◌≤◌, ◌++◌, ◌∷◌, [], ℕ, List, length};
ghost use Rattle.part_definitions.specs.{Request.ATTESTS, Part.Answers, Attestation.{BEFORE_REGION, call_item, item_pc, bounds_read, decision_read, derived_key, call_key, metadata_read}};
ghost use Rattle.device_types.specs.Access.{IsFormed};
ghost use Rattle.hmac_core.specs.Hmac.{HmacStandsFor};
ghost use Rattle.swatt_rom.specs.RomCall.{call_access, next_word};

use crate::decided::{ATTESTS, Decided, decide};
use crate::digest_words::DigestWords;
use crate::region_words::RegionWords;
use crate::request_words::{REQUEST_WORDS, RequestWords, key_bytes, metadata_bytes};
use arrayvec::ArrayVec;
use device_types::{
    Access, Bounds, DERIVED_KEY, INNER_DIGEST, KEPT_COUNTER, MR, ROM_BODY, ROM_ENTRY,
};
use hmac_core::{Digest32, Hmac, hmac};
use std::mem;
use word_arith::Size;

/// What a call does next, and what it still knows: all of it but the return read.
#[derive(Drop)]
pub enum Phase<D> {
    ReadsRequest {
        words: RequestWords,
    },
    WritesHighWord {
        decided: Decided,
    },
    WritesLowWord {
        decided: Decided,
    },
    WritesDecision {
        decided: Decided,
    },
    WritesDerivedKey {
        key: DigestWords,
        bounds: Bounds,
        // The metadata's, which the MAC takes first.
        bytes: ArrayVec<u8, 80>,
    },
    ReadsRegion {
        region: RegionWords,
        mac: Hmac<D>,
    },
    WritesInnerDigest {
        inner: DigestWords,
        mac: DigestWords,
    },
    WritesMac {
        mac: DigestWords,
    },
}

// The bounds are words 16 to 19 of the metadata, behind 32 of the key.
fn bounds_of(words: &[u16; REQUEST_WORDS]) -> Bounds
    ensures { result ≡ bounds_read words.now }
{
    Bounds {
        er_min: words[48],
        er_max: words[49],
        or_min: words[50],
        or_max: words[51],
    }
}

// The key of a challenge, which is the first 32 bytes of the metadata.
fn derived_key<D: Digest32>(key: &[u8], metadata: &[u8]) -> [u8; 32]
    requires { 32 ≤ length metadata.now }
    ensures { result ≡ derived_key D.hash.digest_of key.now metadata.now }
{
    hmac::<D>(key, &metadata[..32])
}

// The running MAC of a message that begins so.
fn mac_of<D: Digest32>(key: &[u8], message: &[u8]) -> Hmac<D>
    ensures { HmacStandsFor D.hash result key.now message.now }
{
    let mut mac = Hmac::new(key);
    mac.update(message);
    mac
}

impl<D: Digest32> Phase<D> {
    ghost use Rattle.swatt_rom.specs.Phase.{IsWrite, PhaseStandsFor, NextStandsFor, HasReadRegion, HashesRegion, BEFORE_DERIVED_KEY, before_inner_digest};

    /// The beginning of a call.
    pub fn new() -> Phase<D>
        ensures { PhaseStandsFor D.hash result [] }
    {
        Phase::ReadsRequest {
            words: RequestWords::new(),
        }
    }

    /// The access of the next step.
    pub fn access(&self) -> Access
        ensures access { (sp : ℕ) (words : List ℕ)
            → PhaseStandsFor D.hash self.now words
            → result ≡ call_access D.hash.digest_of sp words }
        ensures formed { IsFormed result }
    {
        match self {
            Phase::ReadsRequest { words } => words.access(),
            Phase::WritesHighWord { decided } => {
                Access::Write(KEPT_COUNTER + 2, Size::Word, decided.counter[1])
            }
            Phase::WritesLowWord { decided } => {
                Access::Write(KEPT_COUNTER, Size::Word, decided.counter[0])
            }
            Phase::WritesDecision { decided } => {
                Access::Write(MR.first, Size::Word, decided.decision)
            }
            Phase::WritesDerivedKey { key, .. } => key.access(DERIVED_KEY),
            Phase::ReadsRegion { region, .. } => region.access(),
            Phase::WritesInnerDigest { inner, .. } => inner.access(INNER_DIGEST),
            Phase::WritesMac { mac } => mac.access(MR.first),
        }
    }

    /// The `pc` of the next step: the first is the entry of the ROM.
    pub fn pc(&self) -> u16
        ensures { Answers (PhaseStandsFor D.hash) self.now
            (λ words. item_pc (call_item words)) result }
    {
        match self {
            Phase::ReadsRequest { words } => {
                if words.is_empty() {
                    ROM_ENTRY
                } else {
                    ROM_BODY
                }
            }
            _ => ROM_BODY,
        }
    }

    /// Takes the value that the access read: gives the decision where the return read comes next.
    pub fn take(&mut self, value: u16) -> Option<u16>
        ensures { (sp : ℕ) (words : List ℕ)
            → PhaseStandsFor D.hash self.old words
            → NextStandsFor D.hash self.new result
            (words ++ next_word D.hash.digest_of sp words value ∷ []) }
    {
        match self {
            Phase::ReadsRequest { words } => {
                let words = words.take(value)?;
                self.end_request(words);
                None
            }
            Phase::ReadsRegion { region, mac } => {
                mac.update_word(value);
                region.pass()?;
                self.end_region();
                None
            }
            _ => self.pass_write(),
        }
    }

    // All words of the request were read.
    #[inline(never)]
    fn end_request(&mut self, words: [u16; REQUEST_WORDS])
        ensures { PhaseStandsFor D.hash self.new words }
    {
        *self = Phase::WritesHighWord {
            decided: decide::<D>(words),
        };
    }

    // Goes on after a write: gives the decision where the return read comes next. It stands apart
    // from the reads, which are most of a call, as room for each next phase is set to 0 here.
    #[inline(never)]
    fn pass_write(&mut self) -> Option<u16>
        requires { IsWrite self.old }
        ensures { (sp value : ℕ) (words : List ℕ)
            → PhaseStandsFor D.hash self.old words
            → NextStandsFor D.hash self.new result
            (words ++ next_word D.hash.digest_of sp words value ∷ []) }
    {
        match self {
            Phase::ReadsRequest { .. } | Phase::ReadsRegion { .. } => unreachable!(),
            Phase::WritesHighWord { decided } => {
                *self = Phase::WritesLowWord { decided: *decided };
                None
            }
            Phase::WritesLowWord { decided } => {
                *self = Phase::WritesDecision { decided: *decided };
                None
            }
            Phase::WritesDecision { decided } if decided.decision != ATTESTS => {
                Some(decided.decision)
            }
            Phase::WritesDecision { decided } => {
                *self = Phase::after_attesting(&decided.words);
                None
            }
            Phase::WritesDerivedKey { key, bounds, bytes } => {
                key.pass()?;
                *self = Phase::after_derived_key(&key.bytes, *bounds, bytes);
                None
            }
            Phase::WritesInnerDigest { inner, mac } => {
                inner.pass()?;
                *self = Phase::WritesMac { mac: *mac };
                None
            }
            Phase::WritesMac { mac } => mac.pass().and(Some(ATTESTS)),
        }
    }

    // The key of the challenge is derived.
    fn after_attesting(words: &[u16; REQUEST_WORDS]) -> Phase<D>
        ensures { (rest : List ℕ)
            → length (words.now ++ rest) ≡ BEFORE_DERIVED_KEY
            → decision_read (words.now ++ rest) ≡ ATTESTS
            → PhaseStandsFor D.hash result (words.now ++ rest) }
    {
        let key = key_bytes(words);
        let bytes = metadata_bytes(words);
        Phase::WritesDerivedKey {
            key: DigestWords::new(derived_key::<D>(&key, &bytes)),
            bounds: bounds_of(words),
            bytes,
        }
    }

    // The MAC begins under the derived key. Where the bounds are not valid there is no region.
    fn after_derived_key(key: &[u8], bounds: Bounds, metadata: &[u8]) -> Phase<D>
        ensures { (words : List ℕ)
            → key.now ≡ call_key D.hash.digest_of words
            → bounds ≡ bounds_read words
            → metadata.now ≡ metadata_read words
            → length words ≡ BEFORE_REGION
            → decision_read words ≡ ATTESTS
            → PhaseStandsFor D.hash result words }
    {
        let mac = mac_of(key, metadata);
        match RegionWords::new(bounds) {
            Some(region) => Phase::ReadsRegion { region, mac },
            None => Phase::after_region(mac),
        }
    }

    // The region was read.
    fn end_region(&mut self)
        ensures { (words : List ℕ)
            → HasReadRegion D.hash self.old words
            → PhaseStandsFor D.hash self.new words }
    {
        if let Phase::ReadsRegion { mac, .. } = mem::replace(self, Phase::new()) {
            *self = Phase::after_region(mac);
        }
    }

    // The region ends: the inner digest is written first, and then the MAC made of it.
    fn after_region(mac: Hmac<D>) -> Phase<D>
        ensures { (words : List ℕ)
            → length words ≡ before_inner_digest words
            → decision_read words ≡ ATTESTS
            → HashesRegion D.hash mac words
            → PhaseStandsFor D.hash result words }
    {
        let (inner, outer) = mac.inner();
        Phase::WritesInnerDigest {
            inner: DigestWords::new(inner),
            mac: DigestWords::new(outer.finish(&inner)),
        }
    }
}
