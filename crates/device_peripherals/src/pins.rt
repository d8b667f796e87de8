ghost use Rattle.std.specs.Prelude.{[]};
ghost use Rattle.part_definitions.specs.{Part.{Takes, Answers}, Pins.pins_word};

/// The 16 pins of port 1, which P1IN reads. They are 0 until they are set, and a reset leaves them.
#[derive(Clone, Copy, Debug)]
pub struct Pins {
    word: u16,
}

impl Pins {
    ghost use Rattle.device_peripherals.specs.Pins.{PinsStandFor};

    pub fn new() -> Pins
        ensures { PinsStandFor result [] }
    {
        Pins { word: 0 }
    }

    pub fn set(&mut self, word: u16)
        ensures { Takes PinsStandFor self.old word self.new }
    {
        self.word = word;
    }

    pub fn get(&self) -> u16
        ensures { Answers PinsStandFor self.now pins_word result }
    {
        self.word
    }
}
