ghost use Rattle.std.specs.Prelude.{List};
ghost use Rattle.part_definitions.specs.Serial.{SerialEvent};
ghost use Rattle.device_peripherals.specs.Order.{KeepsOrder};

/// Reads give the bytes that were let in, each once and in the order in which they came.
pub fn bytes_keep_order()
    ensures { (events : List SerialEvent) → KeepsOrder events }
{}
