ghost use Rattle.std.specs.Prelude.{◌≡◌};
ghost use Rattle.sha2.specs.Sha256.{sha256};
ghost use Rattle.verifier_desk.specs.DeviceReply.{desk_challenge};

use hmac_core::{Hmac, Sha256Digest};

/// The challenge of a device's request with this counter, under the device's key. The byte 2 before
/// the counter sets these messages apart from those of tokens, which begin with 1.
pub fn desk_challenge(key: &[u8; 64], count: u32) -> [u8; 32]
    ensures { result ≡ desk_challenge sha256 key.now count }
{
    let mut mac = Hmac::<Sha256Digest>::new(key);
    mac.update(&[2]);
    mac.update(&count.to_le_bytes());
    mac.finish()
}
