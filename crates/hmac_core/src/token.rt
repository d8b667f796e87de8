ghost use Rattle.std.specs.Prelude.{◌≡◌};
ghost use Rattle.part_definitions.specs.Request.{request_token};

use crate::digest32::Digest32;
use crate::running_hmac::Hmac;

/// The token of a request for an attestation: of a challenge of 32 bytes, and of the four bytes of
/// a counter, the lowest first. The byte 1 before them sets these messages apart from others under
/// the same key.
pub fn request_token<D: Digest32>(key: &[u8], challenge: &[u8], counter: &[u8]) -> [u8; 32]
    ensures { result ≡ request_token D.hash.digest_of key.now challenge.now counter.now }
{
    let mut hash = Hmac::<D>::new(key);
    hash.update(&[1]);
    hash.update(challenge);
    hash.update(counter);
    hash.finish()
}
