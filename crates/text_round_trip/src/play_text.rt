ghost use Rattle.std.specs.Prelude.{Bool};
ghost use Rattle.device_types.specs.{ExecFlag.SeenHistory, Address.{Bytes, Contents}};
ghost use Rattle.part_definitions.specs.Hmac.{Digest};
ghost use Rattle.device_trace.specs.{Trace.Play, Start.with_key};
ghost use Rattle.mac_coverage.specs.Coverage.{IsDeviceKey, IsOfBytes};
ghost use Rattle.text_round_trip.specs.ReadBack.{FitsItsLines, IsPlayReadBack};

/// The text of a play is a report file, and its reports are those that the play made, in the order
/// of its steps. The play has fewer than 2^32 steps, and it ends at an address of 16 bits.
pub fn play_text_reads_back()
    ensures { (flag : SeenHistory → Bool) (digest : Digest) (key : Bytes) (image : Contents)
        (play : Play)
        → IsDeviceKey key
        → IsOfBytes image
        → FitsItsLines (with_key flag digest key image) play
        → IsPlayReadBack (with_key flag digest key image) play }
{}
