ghost use Rattle.device_types.specs.Address.{Bytes};
ghost use Rattle.part_definitions.specs.Hmac.{Digest};
ghost use Rattle.device_trace.specs.{Trace.Play, Report.EachReport, Start.Start};
ghost use Rattle.device_play.specs.PlayLaws.{IsLawfulReport, ObeysLaws};

/// A report is made as a call ends, and tells of that moment: so what the laws say of each moment
/// of a play, they say of each of its reports.
pub fn reports_tell_of_their_moments()
    ensures { (digest : Digest) (key : Bytes) (start : Start) (play : Play)
        → ObeysLaws digest key start play
        → EachReport start play (IsLawfulReport digest key start) }
{}
