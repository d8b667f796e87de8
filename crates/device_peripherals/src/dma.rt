ghost use Rattle.std.specs.Prelude.{◌≡◌, false, [], ◌∷◌, List, IfSome};
ghost use Rattle.device_types.specs.Access.{IsFormed};
ghost use Rattle.part_definitions.specs.{Part.{Takes, Answers}, Dma.{DmaEvent, TransferStart, Store, DmaAccess, DeviceReset, dma_read, dma_word, dma_access, is_free}};

use crate::activity::Activity;
use crate::part::{covers_byte, part_of_word, register_place};
use crate::register::Register;
use device_types::{Access, BusMaster, DMA};
use word_arith::Size;

const DCTL: u16 = DMA.first;

const DSRC: u16 = DMA.first + 2;

const DDST: u16 = DMA.first + 4;

const DLEN: u16 = DMA.first + 6;

/// The DMA engine. DCTL reads 1 while a transfer is active; a write of bit 0 starts one, from DSRC
/// to DDST, of DLEN words. Bit 0 of both addresses is ignored, and both grow modulo 65,536.
#[derive(Clone, Copy, Debug)]
pub struct Dma {
    source: Register,
    destination: Register,
    length: Register,
    activity: Activity,
}

impl Dma {
    ghost use Rattle.device_peripherals.specs.Dma.{DmaStandsFor};

    /// An engine that is not active, with all registers 0.
    pub fn new() -> Dma
        ensures { DmaStandsFor result [] }
    {
        Dma {
            source: Register::new(DSRC),
            destination: Register::new(DDST),
            length: Register::new(DLEN),
            activity: Activity::begin(0, 0, 0),
        }
    }

    /// What a read gives; 0 where there is no register of the engine.
    pub fn read(&self, place: u16, size: Size) -> u16
        ensures { Answers DmaStandsFor self.now (λ events. dma_read events place size) result }
    {
        part_of_word(self.word(register_place(place)), place, size)
    }

    // The word of the register at this even address.
    fn word(&self, register: u16) -> u16
        ensures { Answers DmaStandsFor self.now (λ events. dma_word events register) result }
    {
        match register {
            DCTL => u16::from(self.activity.is_active()),
            DSRC => self.source.word(),
            DDST => self.destination.word(),
            DLEN => self.length.word(),
            _ => 0,
        }
    }

    /// A write of the processor. One that covers the low byte of DCTL and has bit 0 set starts a
    /// transfer where none is active: its first access is for the next step.
    pub fn write(&mut self, place: u16, size: Size, value: u16)
        ensures { Takes DmaStandsFor self.old (Store place size value) self.new }
    {
        if covers_byte(place, size, DCTL) && value % 2 == 1 {
            self.activity = self.activity.after_start(
                self.source.word(),
                self.destination.word(),
                self.length.word(),
            );
        }
        self.source.write(place, size, value);
        self.destination.write(place, size, value);
        self.length.write(place, size, value);
    }

    /// A start from outside, which leaves the registers as they are: its first access is for this
    /// step. The answer is false while a transfer is active, and nothing changes.
    pub fn start(&mut self, src: u16, dst: u16, len: u16) -> bool
        ensures starts { Answers DmaStandsFor self.old is_free result }
        ensures refused { result ≡ false → self.new ≡ self.old }
        ensures stands { Takes DmaStandsFor self.old (TransferStart src dst len) self.new }
    {
        if self.activity.is_active() {
            return false;
        }
        self.activity = Activity::begin(src, dst, len);
        true
    }
}

impl BusMaster for Dma {
    ghost use Rattle.device_peripherals.specs.Dma.{DmaStandsFor};

    ghost Meaning = { List DmaEvent };

    ghost stands = { DmaStandsFor };

    ghost asks = { dma_access };

    ghost takes = { λ events value. Unit {0} };

    ghost after_take = { λ events value. DmaAccess value ∷ events };

    ghost after_clear = { λ events. DeviceReset ∷ events };

    #[inline(always)]
    fn ask(&self) -> Option<Access>
        ensures access { Answers DmaStandsFor self.now dma_access result }
        ensures formed { IfSome result IsFormed }
    {
        self.activity.access()
    }

    #[inline(always)]
    fn take(&mut self, value: u16)
        ensures { Takes DmaStandsFor self.old (DmaAccess value) self.new }
    {
        self.activity.advance(value);
    }

    fn clear(&mut self) {
        *self = Dma::new();
    }
}
