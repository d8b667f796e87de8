use hmac_core::{Digest32, Sha256Digest};
use std::test::Fail;

// The examples of FIPS 180-4 of one block and of two, each cut in two.
const VECTORS: [([&[u8]; 2], &str); 2] = [
    (
        [b"a", b"bc"],
        "ba7816bf8f01cfea414140de5dae2223b00361a396177a9cb410ff61f20015ad",
    ),
    (
        [
            b"abcdbcdecdefdefgefghfghighijhijkijkljklm",
            b"klmnlmnomnopnopq",
        ],
        "248d6a61d20638b8e5c026930c3e6039a33ce45964ff2167f6ecedd419db06c1",
    ),
];

#[test]
fn digest_vectors(rt: HostRuntime) -> Result<(), Fail> {
    for &(pieces, hash) in &VECTORS {
        let mut digest = Sha256Digest::begin();
        for piece in pieces {
            digest.update(piece);
        }
        assert_eq!(rt; hex::encode(rt.alloc(), digest.finish())?.as_str(), hash);
    }
    Ok(())
}
