ghost use Rattle.std.specs.Prelude.{List};
ghost use Rattle.part_definitions.specs.Dma.{DmaEvent};
ghost use Rattle.device_peripherals.specs.Distance.{GoesByDistance};

/// The law of transfers: the engine is active exactly while fewer steps than two a word were made
/// since the last start that counted, and its access is that of this distance.
pub fn transfer_goes_by_distance()
    ensures { (events : List DmaEvent) → GoesByDistance events }
{}
