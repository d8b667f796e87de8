ghost use Rattle.std.specs.Prelude.{◌≤◌};
ghost use Rattle.device_play.specs.Limit.{most_steps};

use crate::command::play_files::PlayFiles;
use text_scan::decimal;

/// The most steps that one run plays.
pub const MOST_STEPS: u64 = 10_000_000;

/// The arguments `IMAGE SCRIPT KEY STEPS`.
#[derive(Clone, Copy, Debug)]
pub struct PlayArguments<'a> {
    pub files: PlayFiles<'a>,
    pub steps: u64,
    ghost few: { steps ≤ most_steps },
}

impl<'a> PlayArguments<'a> {
    ghost use Rattle.std.specs.Prelude.{◌≡◌, option_map};
    ghost use Rattle.input_files.specs.CommandLine.{texts};
    ghost use Rattle.device_cli.specs.{Play.{steps_row, steps_row_of}, Row.{DevicePlay, Outcome}};

    /// Those that are spelled. STEPS is a decimal in 1..10,000,000.
    pub fn from_arguments(arguments: &'a [String]) -> Option<PlayArguments<'a>>
        ensures { (outcome : DevicePlay → Outcome)
            → option_map (λ play. steps_row outcome play.files.image.name.now
            play.files.script.name.now play.files.key.name.now play.steps) result
            ≡ steps_row_of outcome (texts arguments.now) }
    {
        let [image, script, key, steps] = arguments else {
            return None;
        };
        let steps = decimal(steps.as_bytes(), 1, MOST_STEPS).ok()?;
        let files = PlayFiles::new(image.as_str(), script.as_str(), key.as_str());
        Some(PlayArguments { files, steps })
    }
}
