ghost use Rattle.std.specs.Prelude.{◌≡◌, ◌∷◌, [], take};
ghost use Rattle.part_definitions.specs.Hmac.{hmac};
ghost use Rattle.sha2.specs.Sha256.{sha256};
ghost use Rattle.desk_memory.specs.KeyMark.{key_mark};

use hmac_core::{Digest32, Hmac, Sha256Digest};

/// How many bytes the mark of a key has.
pub const MARK: usize = 16;

fn hmac_of_three<D: Digest32>(key: &[u8; 64]) -> [u8; 32]
    ensures { result ≡ hmac D.hash.digest_of key.now (3 ∷ []) }
{
    let mut mac = Hmac::<D>::new(key);
    mac.update(&[3]);
    mac.finish()
}

/// The mark of a key.
pub fn mark_of(key: &[u8; 64]) -> [u8; MARK]
    ensures { result ≡ key_mark sha256 key.now }
{
    let mac = hmac_of_three::<Sha256Digest>(key);
    let mut mark = [0; MARK];
    mark.copy_from_slice(&mac[..MARK]);
    mark
}
