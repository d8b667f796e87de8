ghost use Rattle.std.specs.Prelude.{◌≡◌};
ghost use Rattle.word_arith.specs.declared.size.Size.TheVariants.{Byte};
ghost use Rattle.part_definitions.specs.{Pins.pins_word, Timer.timer_flag};
ghost use Rattle.device_trace.specs.{Logs.aux_of, Progress.{last_registers, stands_at_boundary}, Signals.number_read, Trace.logs_after};
ghost use Rattle.device_core.specs.Device.{OfLive};

use crate::access::number_read;
use crate::live::Live;
use device_types::TraceFlag;
use hmac_core::Digest32;
use word_arith::Size;

/// What is looked at beside the last step: by a debugger, and in a waveform.
impl<D: Digest32, G: TraceFlag> Live<D, G> {
    /// The registers at the last boundary, all 0 after power-on and after a reset.
    pub fn registers(&self) -> &[u16; 16]
        ensures { OfLive D.hash G.flag self.now (λ start play.
            result.now ≡ last_registers (logs_after start play).progress) }
    {
        self.machine().processor.registers()
    }

    /// Whether the processor runs and neither an instruction nor an interrupt entry is in progress.
    pub fn is_at_boundary(&self) -> bool
        ensures { OfLive D.hash G.flag self.now (λ start play.
            result ≡ stands_at_boundary (logs_after start play).progress) }
    {
        match self {
            Live::Held(_) | Live::InRom(_) => false,
            Live::Running(device) => device.machine.processor.at_boundary(),
        }
    }

    /// How many handlers were entered and not left.
    pub fn level(&self) -> u64
        ensures { OfLive D.hash G.flag self.now (λ start play.
            result ≡ (logs_after start play).level) }
    {
        self.machine().processor.level()
    }

    /// The second flag as the memory shows it.
    pub fn aux(&self) -> bool
        ensures { OfLive D.hash G.flag self.now (λ start play.
            result ≡ aux_of start (logs_after start play)) }
    {
        self.machine().bus.memory.shows_aux()
    }

    /// The pins of port 1.
    pub fn pins(&self) -> u16
        ensures { OfLive D.hash G.flag self.now (λ start play.
            result ≡ pins_word (logs_after start play).peripherals.pins) }
    {
        self.machine().bus.peripherals.pins.get()
    }

    /// The interrupt flag of the timer.
    pub fn timer_flag(&self) -> bool
        ensures { OfLive D.hash G.flag self.now (λ start play.
            result ≡ timer_flag (logs_after start play).peripherals.timer) }
    {
        self.machine().bus.peripherals.timer.has_flag()
    }

    /// The byte that a read at a place would give, of a secret too, without what the read does
    /// besides.
    pub fn peek(&self, place: u16) -> u16
        ensures { OfLive D.hash G.flag self.now (λ start play.
            result ≡ number_read start (logs_after start play) place Byte) }
    {
        let bus = &self.machine().bus;
        number_read(&bus.memory, &bus.peripherals, place, Size::Byte)
    }
}
