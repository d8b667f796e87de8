ghost use Rattle.std.specs.Prelude.{◌≡◌};
ghost use Rattle.device_cli.specs.Row.{ending_of};

/// How the putting of a whole text ends.
#[derive(Clone, Copy, Debug, PartialEq, Eq)]
pub enum Ending {
    /// Every verdict in it is `accept`, or it has none, and it names no offence.
    Done,
    /// A verdict in it is not `accept`, or it names an offence.
    Rejected,
}

impl Ending {
    /// The ending of a text in which every verdict is `accept` and no offence is named, or not.
    pub fn of(is_accepted: bool) -> Ending
        ensures { result ≡ ending_of is_accepted }
    {
        if is_accepted {
            Ending::Done
        } else {
            Ending::Rejected
        }
    }
}
