ghost use Rattle.std.specs.{Prelude.{◌≡◌, length}, Str.bytes_eq};

/// Whether two digests are equal. All 32 bytes are always compared, whatever the first ones are; no
/// clause speaks of that, or of time.
pub fn same_bytes(left: &[u8], right: &[u8]) -> bool
    requires left { length left.now ≡ 32 }
    requires right { length right.now ≡ 32 }
    ensures { result ≡ bytes_eq left.now right.now }
{
    let mut same = true;
    for i in 0..32 {
        same &= left[i] == right[i];
    }
    same
}
