// The extension words of an instruction.
#[derive(Clone, Copy, Debug, PartialEq, Eq)]
pub(crate) enum FollowingWords {
    Nothing,
    One(u16),
    Two(u16, u16),
}

impl FollowingWords {
    ghost use Rattle.std.specs.Prelude.{◌≡◌, ◌++◌, option_to_list};
    ghost use Rattle.msp_decode.specs.FollowingWords.{following_words};

    // The extension words of a source and of a destination.
    pub(crate) fn join(source: Option<u16>, dest: Option<u16>) -> FollowingWords
        ensures { following_words result ≡ option_to_list source ++ option_to_list dest }
    {
        match (source, dest) {
            (None, None) => FollowingWords::Nothing,
            (Some(word), None) | (None, Some(word)) => FollowingWords::One(word),
            (Some(first), Some(second)) => FollowingWords::Two(first, second),
        }
    }
}
