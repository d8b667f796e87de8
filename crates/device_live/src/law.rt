ghost use Rattle.device_live.specs.Laws.{IsCutAnywhere, TellsItsPlay};

/// What is told of the steps is what `play` prints of the lines that were taken, up to the last
/// step.
pub fn tells_its_play()
    ensures { TellsItsPlay }
{}

/// To go to a step first and then on to a later one changes nothing of what is told of the steps.
pub fn run_is_cut_anywhere()
    ensures { IsCutAnywhere }
{}
