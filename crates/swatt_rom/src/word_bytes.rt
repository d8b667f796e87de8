ghost use Rattle.std.specs.Prelude.{◌≡◌, ◌≤◌, ◌*◌, length};
ghost use Rattle.part_definitions.specs.Attestation.{bytes_of_words};

use arrayvec::ArrayVec;

/// The words' bytes in memory order.
pub fn bytes_of<const BYTES: usize>(words: &[u16]) -> ArrayVec<u8, BYTES>
    requires { 2 * length words.now ≤ BYTES }
    ensures bytes { result.items ≡ bytes_of_words words.now }
    ensures length { length result.items ≡ 2 * length words.now }
{
    let mut bytes = ArrayVec::new();
    for word in words {
        let [low, high] = word.to_le_bytes();
        bytes.push(low);
        bytes.push(high);
    }
    bytes
}
