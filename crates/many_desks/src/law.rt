ghost use Rattle.many_desks.specs.{Counters.NoneIsAcceptedTwice, Keys.NoKeyHasTwoNames, Law.{AreAsOne, HasOneHome, IsAnsweredAsOne, IsAnsweredAlike}, Moves.{AreAdoptedOnce, IsAdoptedAgain}, Possible.{IsPrintedAgain, MayFollow, MayServeAll}};

/// Whatever desks serve, whatever moves between them: of each device one desk has it at most.
pub fn device_has_one_home()
    ensures { HasOneHome }
{}

/// Whoever has a device says of it what one desk would that had served all of its lines.
pub fn desks_are_as_one()
    ensures { AreAsOne }
{}

/// Each line of a device is answered as that one desk would answer it.
pub fn device_is_answered_as_one()
    ensures { IsAnsweredAsOne }
{}

/// The last number gets the last answer again under the same key, at whatever desk, and is stale
/// under another one.
pub fn answer_is_repeated()
    ensures { IsAnsweredAlike }
{}

/// No counter is requested twice or accepted twice by all desks together, and what is accepted was
/// requested under its key.
pub fn report_is_accepted_once()
    ensures { NoneIsAcceptedTwice }
{}

/// No key is served under two names by all desks together.
pub fn key_is_under_one_name()
    ensures { NoKeyHasTwoNames }
{}

/// Lines by which a device moved are adopted once: by them it is on its way, or it is here, or they
/// are refused.
pub fn lines_are_adopted_once()
    ensures { AreAdoptedOnce }
{}

/// The same lines again change nothing.
pub fn adopted_again_is_adopted()
    ensures { IsAdoptedAgain }
{}

/// A desk may serve whatever lines over its memory, where its keys stand apart, no device is gone,
/// and each that is new to it, or has a key that is, is new to all others.
pub fn desk_may_serve()
    ensures { MayServeAll }
{}

/// Another desk that a device is sent to may adopt its lines.
pub fn sent_device_may_follow()
    ensures { MayFollow }
{}

/// What a memory prints again of a device that is gone is what it printed when the device went.
pub fn move_is_printed_again()
    ensures { IsPrintedAgain }
{}
