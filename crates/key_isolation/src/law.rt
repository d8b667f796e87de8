ghost use Rattle.std.specs.Prelude.{◌≡◌, ◌++◌, Bool, List};
ghost use Rattle.device_types.specs.{ExecFlag.SeenHistory, Address.{Contents, Bytes}};
ghost use Rattle.device_trace.specs.{Blank.blank, Start.{Start, with_key}, Trace.{open_trace, released_words, trace, Play}};
ghost use Rattle.key_isolation.specs.Keyless.{ReleaseAlike, SameButKey, LooksAlike, LooksKeyless, keyless};
ghost use Rattle.word_arith.specs.Number.{Word16};
ghost use Rattle.part_definitions.specs.Hmac.{Digest};

/// For every second flag, digest, key, image and play: the trace, with what stands in the key and
/// in the exclusive stack blanked, is the trace without a key in which the calls release these
/// words. What the list of released words goes on with does not matter.
pub fn key_acts_through_released_words()
    ensures { (flag : SeenHistory → Bool) (digest : Digest) (key : Bytes) (image : Contents)
        (play : Play) (more : List Word16)
        → blank (trace (with_key flag digest key image) play)
        ≡ open_trace flag
        (released_words (with_key flag digest key image) play ++ more) image play }
{}

/// So the text of every play is the text of that trace, and the memory outside the key and the
/// exclusive stack is its memory.
pub fn plays_look_keyless()
    ensures { (start : Start) (play : Play) → LooksKeyless start play }
{}

/// That trace is made of image, second flag, released words and play alone: it is the same of any
/// two starts that have these in common.
pub fn keyless_starts_have_no_key()
    ensures { (start other : Start) (play : Play) (more : List Word16)
        → SameButKey start other
        → released_words start play ≡ released_words other play
        → keyless start play more ≡ keyless other play more }
{}

/// So a second key whose released words agree with those of the first gives the same text, the same
/// trace but for what is blanked, and the same memory outside the key and the exclusive stack.
pub fn second_key_changes_nothing()
    ensures { (start other : Start) (play : Play)
        → SameButKey start other → ReleaseAlike start other play → LooksAlike start other play }
{}
