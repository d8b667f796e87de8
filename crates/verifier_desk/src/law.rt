ghost use Rattle.verifier_desk.specs.{KeyMessage.MessagesStandApart, KeyOwner.{IsKeyBound, IsKeyKept, IsUnderOneName}, Law.{IsServedAlone, IsAcceptedOnce, IsAnswered, IsGoneOn, IsRemembered, IsRepeated}, Run.IsOfAllRuns, Standing.IsKeptAtItsPlace};

/// The replies to a device are those at a desk whose devices and lines are that device's alone.
pub fn device_is_served_alone()
    ensures { IsServedAlone }
{}

/// No counter is requested twice or accepted twice, and what is accepted was requested under its
/// key, through all runs from any sound entry on.
pub fn report_is_accepted_once()
    ensures { IsAcceptedOnce }
{}

/// The same number again gets the same answer under the same key, is stale under another one, and
/// changes nothing.
pub fn answer_is_repeated()
    ensures { IsRepeated }
{}

/// A report that is accepted answers the outstanding request: its counter and its challenge.
pub fn accept_answers_request()
    ensures { IsAnswered }
{}

/// A line of the device at a place changes the state there alone.
pub fn state_is_kept_at_its_place()
    ensures { IsKeptAtItsPlace }
{}

/// The memory has the last entry of each device after its lines, and of other names what it had.
pub fn memory_has_states()
    ensures { IsRemembered }
{}

/// A desk that is started with what the memory of another had goes on as if it had not been
/// stopped.
pub fn desk_goes_on()
    ensures { IsGoneOn }
{}

/// The memory has the last entry of each device after its lines of all runs, each judged as in its
/// run.
pub fn memory_has_all_runs()
    ensures { IsOfAllRuns }
{}

/// Keys that stand apart go on to, each under its name.
pub fn keys_are_kept()
    ensures { IsKeyKept }
{}

/// Whatever answer but `stale` a device is told, its key stands under its name with it.
pub fn told_key_is_bound()
    ensures { IsKeyBound }
{}

/// No key is served under two names, through all runs.
pub fn key_is_under_one_name()
    ensures { IsUnderOneName }
{}

/// Of the messages of tokens, challenges and marks, none of one kind begins one of another.
pub fn messages_stand_apart()
    ensures { MessagesStandApart }
{}
