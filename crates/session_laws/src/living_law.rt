ghost use Rattle.std.specs.Prelude.{ℕ, List};
ghost use Rattle.word_arith.specs.Number.{Word16};
ghost use Rattle.device_trace.specs.Start.{Start};
ghost use Rattle.key_isolation.specs.Keyless.{ReleaseAlike, SameButKey, keyless};
ghost use Rattle.session_laws.specs.LivingSecrecy.{AnswersAlike, lived_behind};

/// For every start, and whatever lines come: behind each of them a device has put what the same
/// device puts without its key, whose calls release the words that they release over all steps that
/// were made, and lives on from the same life. What the list of released words goes on with does
/// not matter.
pub fn conversation_is_keyless()
    ensures { (start : Start) (lines : List (List ℕ)) (more : List Word16)
        → AnswersAlike start (keyless start (lived_behind start lines) more) lines }
{}

/// So under a second key whose released words agree with those of the first, over these steps, it
/// has put the same behind each line, and lives on from the same life.
pub fn second_key_gives_same_conversation()
    ensures { (start other : Start) (lines : List (List ℕ))
        → SameButKey start other
        → ReleaseAlike start other (lived_behind start lines)
        → AnswersAlike start other lines }
{}
