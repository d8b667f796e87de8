ghost use Rattle.std.specs.Prelude.{ℕ, List};
ghost use Rattle.word_arith.specs.Number.{Word16};
ghost use Rattle.device_types.specs.declared.event.Event.{Event};
ghost use Rattle.device_trace.specs.Start.{Start};
ghost use Rattle.key_isolation.specs.Keyless.{ReleaseAlike, SameButKey, keyless};
ghost use Rattle.debug_link.specs.Conversation.{Input};
ghost use Rattle.session_laws.specs.DebuggerSecrecy.{steps_gone, TellsTheSame, run_of};

/// For every start and script, and whatever comes: behind each input a debugger of a device has put
/// what it puts of the same device without its key, whose calls release the words that they release
/// over the steps up to where the debugger went, and stands at the same place. What the list of
/// released words goes on with does not matter.
pub fn talk_is_keyless()
    ensures { (start : Start) (events_at : ℕ → List Event) (inputs : List (Input ℕ))
        (more : List Word16)
        → TellsTheSame (run_of start events_at)
        (run_of (keyless start (steps_gone (run_of start events_at) inputs) more) events_at)
        inputs }
{}

/// So under a second key whose released words agree with those of the first, over these steps, a
/// debugger has put the same behind each input, and stands at the same place.
pub fn second_key_gives_same_talk()
    ensures { (start other : Start) (events_at : ℕ → List Event) (inputs : List (Input ℕ))
        → SameButKey start other
        → ReleaseAlike start other (steps_gone (run_of start events_at) inputs)
        → TellsTheSame (run_of start events_at) (run_of other events_at) inputs }
{}
