ghost use Rattle.std.specs.Prelude.{◌≡◌, Bool, Some};
ghost use Rattle.device_types.specs.{Report.ReportFields, ExecFlag.SeenHistory, Address.{Contents, Bytes}};
ghost use Rattle.device_trace.specs.{Report.EachReport, Start.with_key, Text.last_report, Trace.Play};
ghost use Rattle.mac_coverage.specs.{AttestedBytes.tag_of, Coverage.{Gives32Bytes, IsDeviceKey, IsOfBytes, MacCoversLastCall, MacCoversReport, attested_after}};
ghost use Rattle.part_definitions.specs.Hmac.{Digest};

/// Let the last step of a play be one of a call of the ROM. Metadata and bytes of ER and OR stand
/// in memory unchanged at each moment from the end of the call's first step to the end of its last,
/// or to the beginning of one that is refused; before the call they stood there too, but for the
/// EXEC word and the AUX word. The counter that was kept before the call is kept until the call
/// writes it, and then the request's, where the call attests. The words that the call wrote to the
/// MAC are the first of these: its decision by the token and the two counters and, where it
/// attests, the 16 words of the tag under the device key. Where the call is finished, they are all
/// of them, and the tag stands in memory.
pub fn mac_covers_region_throughout_call()
    ensures { (flag : SeenHistory → Bool) (digest : Digest) (key : Bytes) (image : Contents)
        (play : Play)
        → IsDeviceKey key
        → IsOfBytes image
        → MacCoversLastCall digest key (with_key flag digest key image) play }
{}

/// The MAC in a report is the tag, under the device key, of the metadata and the bytes of ER and OR
/// that stand in memory as the report is made. By the law above they stood there throughout the
/// call.
pub fn reported_mac_is_tag()
    ensures { (flag : SeenHistory → Bool) (digest : Digest) (key : Bytes) (image : Contents)
        (play : Play) (report : ReportFields)
        → IsDeviceKey key
        → IsOfBytes image
        → Gives32Bytes digest
        → last_report (with_key flag digest key image) play ≡ Some report
        → report.mac
        ≡ tag_of digest key (attested_after (with_key flag digest key image) play) }
{}

/// So the MAC of each report of a play covers its call.
pub fn mac_covers_each_report()
    ensures { (flag : SeenHistory → Bool) (digest : Digest) (key : Bytes) (image : Contents)
        (play : Play)
        → IsDeviceKey key
        → IsOfBytes image
        → EachReport (with_key flag digest key image) play
        (MacCoversReport digest key (with_key flag digest key image)) }
{}
