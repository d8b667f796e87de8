ghost use Rattle.std.specs.Prelude.{◌≡◌};
ghost use Rattle.sha2.specs.Sha256.{sha256};
ghost use Rattle.part_definitions.specs.Request.{request_token};
ghost use Rattle.report_verifier.specs.Expectation.{count_bytes};

use hmac_core::{Sha256Digest, request_token};

/// The token of a request with this challenge and counter, under a device key.
pub fn token(key: &[u8; 64], chal: &[u8; 32], count: u32) -> [u8; 32]
    ensures { result ≡ request_token sha256 key.now chal.now (count_bytes count) }
{
    request_token::<Sha256Digest>(key, chal, &count.to_le_bytes())
}
