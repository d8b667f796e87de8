ghost use Rattle.std.specs.Prelude.{◌≡◌, ◌≤◌, ℕ, true, false, [], ◌∷◌, List};
ghost use Rattle.part_definitions.specs.{Part.{Takes, Answers, Becomes}, Timer.{TimerEvent, Tick, Store, Acceptance, DeviceReset, timer_runs, timer_read, timer_word, timer_flag, timer_requests}};

use crate::part::{part_of_word, register_place};
use crate::register::Register;
use device_types::TIMER;
use word_arith::Size;

const TCTL: u16 = TIMER.first;

const TCNT: u16 = TIMER.first + 2;

const TCMP: u16 = TIMER.first + 4;

/// The timer. While bit 0 of TCTL is set, TCNT counts steps from 0 to TCMP and again from 0, and
/// raises the flag where it comes to 0. Bit 1 of TCTL enables the interrupt.
#[derive(Clone, Copy, Debug)]
pub struct Timer {
    control: Register,
    compare: Register,
    count: u16,
    // The step of the write that began the count has not ended.
    fresh: bool,
    flag: bool,
}

impl Timer {
    ghost use Rattle.device_peripherals.specs.Timer.{with_ticks, ticks_before_zero, TimerStandsFor};

    /// A timer that is stopped, with all registers 0.
    pub fn new() -> Timer
        ensures { TimerStandsFor result [] }
    {
        Timer {
            control: Register::new(TCTL),
            compare: Register::new(TCMP),
            count: 0,
            fresh: true,
            flag: false,
        }
    }

    /// What a read gives; 0 where there is no register of the timer.
    pub fn read(&self, place: u16, size: Size) -> u16
        ensures { Answers TimerStandsFor self.now (λ events. timer_read events place size) result }
    {
        part_of_word(self.word(register_place(place)), place, size)
    }

    // The word of the register at this even address.
    fn word(&self, register: u16) -> u16
        ensures { Answers TimerStandsFor self.now (λ events. timer_word events register) result }
    {
        match register {
            TCTL => self.control.word() % 4,
            TCNT => self.count,
            TCMP => self.compare.word(),
            _ => 0,
        }
    }

    /// A write of the processor. One that covers a byte of TCTL or TCMP sets TCNT to 0 and lowers
    /// the flag.
    pub fn write(&mut self, place: u16, size: Size, value: u16)
        ensures { Takes TimerStandsFor self.old (Store place size value) self.new }
    {
        self.control.write(place, size, value);
        self.compare.write(place, size, value);
        if matches!(register_place(place), TCTL | TCMP) {
            *self = Timer {
                count: 0,
                fresh: true,
                flag: false,
                ..*self
            };
        }
    }

    /// The end of a step. It counts, but not in the step of a write that set TCNT to 0.
    pub fn tick(&mut self)
        ensures { Takes TimerStandsFor self.old Tick self.new }
    {
        if self.fresh {
            self.fresh = false;
        } else if self.runs() {
            self.advance();
        }
    }

    // Counts one step.
    #[tactic(auto, using(crate::proofs::Ticks::tick_facts))]
    fn advance(&mut self)
        ensures { (events : List TimerEvent)
            → TimerStandsFor self.old events
            → self.old.fresh ≡ false → timer_runs events ≡ true
            → TimerStandsFor self.new (Tick ∷ events) }
    {
        if self.count < self.compare.word() {
            self.count += 1;
        } else {
            self.count = 0;
            self.flag = true;
        }
    }

    /// Ends the steps before the count comes to 0 again, at most so many: all at once. How many. In
    /// none of them the timer's request comes or goes.
    pub fn tick_before_zero(&mut self, most: u64) -> u64
        ensures few { result ≤ most }
        ensures steps { Answers TimerStandsFor self.old (ticks_before_zero most) result }
        ensures stands { Becomes TimerStandsFor self.old (with_ticks result) self.new }
        ensures requests { (events : List TimerEvent) (steps : ℕ)
            → TimerStandsFor self.old events
            → steps ≤ result
            → timer_requests (with_ticks steps events) ≡ timer_requests events }
    {
        if self.runs() {
            return self.count_on(most);
        }
        if most > 0 {
            self.fresh = false;
        }
        most
    }

    // Likewise, of a timer that runs.
    fn count_on(&mut self, most: u64) -> u64
        ensures few { result ≤ most }
        ensures steps { (events : List TimerEvent)
            → TimerStandsFor self.old events
            → timer_runs events ≡ true
            → result ≡ ticks_before_zero most events }
        ensures stands { (events : List TimerEvent)
            → TimerStandsFor self.old events
            → timer_runs events ≡ true
            → TimerStandsFor self.new (with_ticks result events) }
    {
        let left = self.compare.word().saturating_sub(self.count);
        let steps = most.min(u64::from(left));
        if steps > 0 {
            self.count += steps as u16 - u16::from(self.fresh);
            self.fresh = false;
        }
        steps
    }

    fn runs(&self) -> bool
        ensures { Answers TimerStandsFor self.now timer_runs result }
    {
        self.control.word() % 2 == 1
    }

    /// The interrupt flag, whether or not the interrupt is enabled.
    pub fn has_flag(&self) -> bool
        ensures { Answers TimerStandsFor self.now timer_flag result }
    {
        self.flag
    }

    /// Whether the timer asks for an interrupt.
    pub fn request(&self) -> bool
        ensures { Answers TimerStandsFor self.now timer_requests result }
    {
        self.flag && self.control.word() / 2 % 2 == 1
    }

    /// The first step of the timer's interrupt entry: the flag falls.
    pub fn accept(&mut self)
        ensures { Takes TimerStandsFor self.old Acceptance self.new }
    {
        self.flag = false;
    }

    /// A reset.
    pub fn clear(&mut self)
        ensures { Takes TimerStandsFor self.old DeviceReset self.new }
    {
        *self = Timer::new();
    }
}
