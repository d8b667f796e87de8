ghost use Rattle.std.specs.Prelude.{◌≡◌, [], IfSome};
ghost use Rattle.device_types.specs.Access.{IsFormed};
ghost use Rattle.part_definitions.specs.Part.{Answers, Becomes};
ghost use Rattle.swatt_rom.specs.RomCall.{RomCall, NoCall, InCall, rom_access, rom_pc, call_end, after_value};

use crate::call_end::CallEnd;
use crate::phase::Phase;
use crate::state::State;
use device_types::{Access, BusMaster};
use hmac_core::{Digest32, Sha256Digest};

/// The engine that makes the steps of a call. It gives each word of the region to a running hash as
/// it reads it, and keeps no list of them.
#[derive(Drop)]
pub struct Rom<D> {
    state: State<D>,
}

const _: () = prove!(size_of::<Rom<Sha256Digest>>() <= 2048);

impl<D: Digest32> Rom<D> {
    ghost use Rattle.swatt_rom.specs.Rom.{RomStandsFor, idle_rom};

    /// An engine in no call.
    pub fn new() -> Rom<D>
        ensures stands { RomStandsFor D.hash result NoCall }
        ensures idle { result ≡ idle_rom }
    {
        Rom { state: State::Idle }
    }

    /// Begins a call, with the processor's stack pointer. What went before is forgotten.
    pub fn begin(&mut self, sp: u16)
        ensures { RomStandsFor D.hash self.new (InCall sp []) }
    {
        self.state = State::Calls {
            sp,
            phase: Phase::new(),
        };
    }

    /// The `pc` of the next step of a call: A000 in the first, BFFE in the last and A002 in the
    /// others; 0 where no call is in progress.
    pub fn pc(&self) -> u16
        ensures { Answers (RomStandsFor D.hash) self.now rom_pc result }
    {
        self.state.pc()
    }

    /// What a call leaves: there from its last step until the next call begins.
    pub fn done(&self) -> Option<CallEnd>
        ensures { Answers (RomStandsFor D.hash) self.now call_end result }
    {
        self.state.call_end()
    }
}

impl<D: Digest32> BusMaster for Rom<D> {
    ghost use Rattle.swatt_rom.specs.Rom.{RomStandsFor, idle_rom};

    ghost Meaning = { RomCall };

    ghost stands = { RomStandsFor D.hash };

    ghost asks = { rom_access D.hash.digest_of };

    ghost takes = { λ call value. Unit {0} };

    ghost after_take = { after_value D.hash.digest_of };

    ghost after_clear = { λ call. NoCall };

    fn ask(&self) -> Option<Access>
        ensures access { Answers (RomStandsFor D.hash) self.now
            (rom_access D.hash.digest_of) result }
        ensures formed { IfSome result IsFormed }
    {
        self.state.access()
    }

    fn take(&mut self, value: u16)
        ensures { Becomes (RomStandsFor D.hash) self.old
            (λ call. after_value D.hash.digest_of call value) self.new }
    {
        self.state.take(value);
    }

    fn clear(&mut self)
        ensures stands { RomStandsFor D.hash self.new NoCall }
        ensures idle { self.new ≡ idle_rom }
    {
        *self = Rom::new();
    }
}
