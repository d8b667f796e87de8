ghost use Rattle.std.specs.Prelude.{◌≡◌, ◌++◌, ◌<◌, ◌≤◌, ◌∷◌, ℕ, Bool, IsFalse, List};
ghost use Rattle.device_types.specs.{ExecFlag.SeenHistory, declared.event.Event.Event, Address.{Contents, Bytes}};
ghost use Rattle.device_trace.specs.{Report.EachReport, Start.with_key, Trace.{trace, Play}};
ghost use Rattle.mac_coverage.specs.Coverage.{IsDeviceKey, IsOfBytes};
ghost use Rattle.request_freshness.specs.Freshness.{Attests, BeganAfter, IsRightlyRequested, TellsNewCounter, WasUnderWay, ends_between_words, kept_counter};
ghost use Rattle.part_definitions.specs.Hmac.{Digest};

/// The kept counter never falls: after more steps it is not less than it was. The one moment that
/// this does not speak of, as the earlier one, is that between the two writes of a call that
/// changes the counter, where the new high word stands above the old low word.
pub fn kept_counter_never_falls()
    ensures { (flag : SeenHistory → Bool) (digest : Digest) (key : Bytes) (image : Contents)
        (later earlier : Play)
        → IsDeviceKey key
        → IsOfBytes image
        → IsFalse (ends_between_words (trace (with_key flag digest key image) earlier))
        → kept_counter (with_key flag digest key image) earlier
        ≤ kept_counter (with_key flag digest key image) (later ++ earlier) }
{}

/// Nothing but a call on a request with the right token moves the kept counter, and never above the
/// high word of the request's counter: firmware, DMA and resets use no counter up without such a
/// request, and with one none past its high word.
pub fn kept_counter_moves_for_right_requests()
    ensures { (flag : SeenHistory → Bool) (digest : Digest) (key : Bytes) (image : Contents)
        (play : Play) (events : List Event)
        → IsDeviceKey key
        → IsOfBytes image
        → (kept_counter (with_key flag digest key image) (events ∷ play)
        ≡ kept_counter (with_key flag digest key image) play
        → ⊥)
        → IsRightlyRequested digest key (with_key flag digest key image) (events ∷ play) }
{}

/// Where a call has decided to attest a request, and so has a call that began after that moment,
/// the counter of the second request is greater.
pub fn attested_counters_grow()
    ensures { (flag : SeenHistory → Bool) (digest : Digest) (key : Bytes) (image : Contents)
        (later earlier : Play) (first second : ℕ)
        → IsDeviceKey key
        → IsOfBytes image
        → Attests (with_key flag digest key image) earlier first
        → Attests (with_key flag digest key image) (later ++ earlier) second
        → BeganAfter (with_key flag digest key image) later earlier
        → first < second }
{}

/// So a request is attested at most once: where at two moments of a play a call has decided to
/// attest a request with this counter, it is one call, which was under way at the first of them.
pub fn request_is_attested_once()
    ensures { (flag : SeenHistory → Bool) (digest : Digest) (key : Bytes) (image : Contents)
        (later earlier : Play) (counter : ℕ)
        → IsDeviceKey key
        → IsOfBytes image
        → Attests (with_key flag digest key image) earlier counter
        → Attests (with_key flag digest key image) (later ++ earlier) counter
        → WasUnderWay (with_key flag digest key image) later earlier }
{}

/// So each report of a play tells a greater counter than every report before it.
pub fn each_report_tells_new_counter()
    ensures { (flag : SeenHistory → Bool) (digest : Digest) (key : Bytes) (image : Contents)
        (play : Play)
        → IsDeviceKey key
        → IsOfBytes image
        → EachReport (with_key flag digest key image) play
        (TellsNewCounter (with_key flag digest key image)) }
{}
