ghost use Rattle.std.specs.Prelude.{◌≡◌, ◌<◌, ◌≤◌, ◌∷◌, [], ℕ, true, false, List, Option, IfOk, IfSome, IsSome, None, Some, is_none, map, if◌then◌else◌};
ghost use Rattle.device_types.specs.{declared.event.Event.Event, Bounds.executable_region, TraceFlag.IsRecordOf, ExecFlag.{SeenHistory, exec, last_pc}};
ghost use Rattle.part_definitions.specs.{Dma.dma_access, FirstRule.{breaks_i1, first_rule}, Memory.{PowerOn, ShownFlags, MemoryWrite}, Part.Takes, CpuRegister.Registers};
ghost use Rattle.mem_map.specs.{Memory.MemoryStandsFor, Image.power_on_of};
ghost use Rattle.device_trace.specs.{Start.Start, Blank.blank_seen, Logs.{Logs, aux_of, power_on_logs, goes_on_in_call, logged_bounds, memory_after, with_events, with_record}, Signals.{signals_of, word_fetched, value_read}, Step.{is_reset, asks_reset, record_from}};
ghost use Rattle.device_core.specs.{Bus.{TurnStandsFor, logs_after_step}, Silence.has_line, Sleep.{IsOfSleep, SleepsAt, idle_signals, logs_idle}};

use crate::access::{value_read, word_fetched};
use crate::calm::{ABOVE_ROM, is_above_rom, is_calm};
use crate::last_step::{LastStep, keep_none};
use crate::monitors::Monitors;
use crate::peripherals::Peripherals;
use crate::record::{goes_on_in_call, has_line, is_kept, record_of_refusal, record_of_step};
use crate::turn::Turn;
use device_types::{Access, BusMaster, BusRecord, CR, Event, Kind, Region, Signals, TraceFlag};
use mem_map::{Image, Memory, exchange};
use std::alloc::{AllocError, Global};

/// The bus, with what is reached over it and what watches it.
#[derive(Drop)]
pub struct Bus<G: TraceFlag> {
    pub memory: Memory,
    pub peripherals: Peripherals,
    pub monitors: Monitors<G>,
    /// The last step, where it was kept. One that was not has no line.
    pub last: Option<LastStep>,
}

fn is_reset(event: &Event) -> bool
    ensures { result ≡ is_reset event.now }
{
    matches!(event, Event::Reset)
}

// Whether the script asks for a reset in this step.
fn asks_reset(events: &[Event]) -> bool
    ensures { result ≡ asks_reset events.now }
{
    events.iter().any(|event| is_reset(event))
}

// Shows the EXEC flag in memory, which showed what it was.
#[inline(always)]
fn show_exec(memory: &mut Memory, was_set: bool, is_set: bool)
    ensures { (start : PowerOn) (flags : ShownFlags) (writes : List MemoryWrite)
        → MemoryStandsFor memory.old start flags writes
        → was_set ≡ flags.exec
        → MemoryStandsFor memory.new start (record flags { exec = is_set }) writes }
{
    if is_set != was_set {
        memory.set_exec(is_set);
    }
}

// Shows the second flag in memory, but for a step after which it stays as it is shown.
#[inline(always)]
fn show_aux(memory: &mut Memory, stays: bool, is_set: bool)
    ensures { (start : PowerOn) (flags : ShownFlags) (writes : List MemoryWrite)
        → MemoryStandsFor memory.old start flags writes
        → MemoryStandsFor memory.new start
        (record flags { aux = if stays then flags.aux else is_set }) writes }
{
    if !stays {
        memory.set_aux(is_set);
    }
}

// What the step of this turn is about to do, whose access reads this value, and in which the DMA
// asks for this access.
#[inline(always)]
#[tactic(auto, unfolding(device_trace::specs::Signals::signals_at))]
fn signals(turn: &Turn, value: u16, dma: Option<Access>, script_reset: bool) -> Signals
    ensures access { result.cpu ≡ turn.now.access }
    ensures signals { (start : Start) (logs : Logs) (regs : Registers)
        → TurnStandsFor regs turn.now start logs
        → value ≡ value_read start logs turn.now.access
        → dma ≡ dma_access logs.peripherals.dma
        → result ≡ signals_of start logs script_reset }
{
    Signals {
        kind: turn.kind,
        pc: turn.pc,
        cpu: turn.access,
        dma,
        irq: turn.irq,
        word: word_fetched(turn.access, value),
        opcode: turn.opcode,
        script_reset,
    }
}

// What a step of sleep at this `pc` is about to do.
fn idle_signals(pc: u16) -> Signals
    ensures { result ≡ idle_signals pc }
{
    Signals {
        kind: Kind::Idle,
        pc,
        cpu: None,
        dma: None,
        irq: false,
        word: 0,
        opcode: false,
        script_reset: false,
    }
}

impl<G: TraceFlag> Bus<G> {
    ghost use Rattle.device_trace.specs.Logs.{flags_shown};
    ghost use Rattle.device_core.specs.{Bus.{BusStandsFor, KeepsSignals, AnswersTurn, MakesTurn, Performs, PerformsFrom, record_performed, seen_in}, Calm.{IsCalmRegion, ReadsCalmly}, FlagsKept.{LeavesFlags, KeepsFlags, has_flag, MonitorsStandFor}, Sleep.{Rests, Sleeps}};

    /// The bus at power-on. The flag has seen no record.
    #[tactic(auto, unfolding(device_types::specs::ExecFlag::exec))]
    pub fn new(alloc: Global, key: &[u8; 64], image: &Image, flag: G) -> Result<Bus<G>, AllocError>
        requires { G.flag.has_seen flag [] }
        ensures stands { (start : Start)
            → start.power ≡ power_on_of key.now image.now
            → start.second_flag ≡ G.flag.value
            → IfOk result (λ bus. BusStandsFor G.flag bus start power_on_logs) }
    {
        let mut memory = Memory::new(alloc, key, image)?;
        memory.set_aux(flag.value());
        Ok(Bus {
            memory,
            peripherals: Peripherals::new(alloc)?,
            monitors: Monitors::new(flag),
            last: None,
        })
    }

    /// The events of a step come, in their order. Whether one asks for a reset.
    #[tactic(auto, unfolding(device_trace::specs::Logs::with_events))]
    pub fn take_events(&mut self, events: &[Event]) -> bool
        ensures last { self.new.last ≡ self.old.last }
        ensures reset { result ≡ asks_reset events.now }
        ensures stands { (start : Start) (logs : Logs)
            → BusStandsFor G.flag self.old start logs
            → BusStandsFor G.flag self.new start (with_events logs events.now) }
    {
        self.peripherals.take_events(events);
        asks_reset(events)
    }

    /// The access that the DMA asks for in the next step.
    #[inline(always)]
    pub fn dma_access(&self) -> Option<Access>
        ensures { (start : Start) (logs : Logs)
            → BusStandsFor G.flag self.now start logs
            → result ≡ dma_access logs.peripherals.dma }
    {
        self.peripherals.dma.ask()
    }

    /// Makes steps of sleep at this `pc` without events, at most so many, all at once: those before
    /// the timer's count comes to 0 again, where the step before them had that `pc` and was not
    /// kept. How many.
    pub fn skip_sleep(&mut self, pc: u16, most: u64) -> u64
        requires { self.old.last ≡ None }
        ensures few { result ≤ most }
        ensures last { self.new.last ≡ None }
        ensures stands { (start : Start) (logs : Logs)
            → BusStandsFor G.flag self.old start logs
            → SleepsAt pc logs
            → BusStandsFor G.flag self.new start (logs_idle start result logs) }
        ensures asleep { (start : Start) (logs : Logs) (steps : ℕ)
            → BusStandsFor G.flag self.old start logs
            → SleepsAt pc logs
            → steps ≤ result
            → Sleeps start logs (logs_idle start steps logs) }
        ensures of_sleep { (start : Start) (logs : Logs) (steps : ℕ)
            → BusStandsFor G.flag self.old start logs
            → SleepsAt pc logs
            → steps < result
            → IsOfSleep start (logs_idle start steps logs) }
    {
        if self.can_skip_sleep(&idle_signals(pc)) {
            self.peripherals.tick_idle(most)
        } else {
            0
        }
    }

    // Whether steps that are about to do this leave the bus as it is, but for the timer: the DMA
    // asks for nothing, they break no rule, and leave both flags as they are and as they are shown.
    fn can_skip_sleep(&self, now: &Signals) -> bool
        ensures { (start : Start) (logs : Logs)
            → BusStandsFor G.flag self.now start logs
            → result ≡ true
            → Rests G.flag self.now now.now start logs }
    {
        if self.dma_access().is_some() {
            return false;
        }
        self.monitors.repeat(now, &self.memory.bounds()) && self.shows_second_flag()
    }

    // The monitors see a step, memory shows the flags after it, and it is kept.
    #[inline(always)]
    fn watch(&mut self, step: LastStep)
        ensures last { self.new.last ≡ Some step }
        ensures peripherals { self.new.peripherals ≡ self.old.peripherals }
        ensures memory { (start : Start) (writes : List MemoryWrite) (records : SeenHistory)
            → start.second_flag ≡ G.flag.value
            → MemoryStandsFor self.old.memory start.power (flags_shown start records) writes
            → MonitorsStandFor G.flag self.old.monitors records
            → MemoryStandsFor self.new.memory start.power
            (flags_shown start (seen_in step ∷ records)) writes }
        ensures monitors { Takes (MonitorsStandFor G.flag) self.old.monitors (seen_in step)
            self.new.monitors }
    {
        let was_set = self.monitors.exec();
        self.monitors.see(&step.entry, &step.bounds);
        show_exec(&mut self.memory, was_set, self.monitors.exec());
        let is_still = goes_on_in_call(&step.entry);
        show_aux(&mut self.memory, is_still, self.monitors.aux());
        self.last = Some(step);
    }

    // Makes the writes of a step that breaks no rule, whose access read this value, and the DMA's
    // read. Its record.
    #[inline(always)]
    fn make(&mut self, regs: &[u16; 16], now: &Signals, value: u16) -> BusRecord
        ensures peripherals { self.new.peripherals ≡ self.old.peripherals }
        ensures monitors { self.new.monitors ≡ self.old.monitors }
        ensures last { self.new.last ≡ self.old.last }
        ensures entry { IsRecordOf now.now result }
        ensures value { (start : Start) (logs : Logs)
            → BusStandsFor G.flag self.old start logs
            → value ≡ value_read start logs now.now.cpu
            → result ≡ record_performed start logs regs.now now.now }
        ensures memory { (start : PowerOn) (flags : ShownFlags) (writes : List MemoryWrite)
            → MemoryStandsFor self.old.memory start flags writes
            → MemoryStandsFor self.new.memory start flags
            (memory_after None now.now.cpu now.now.dma writes) }
    {
        let dma_value = exchange(&mut self.memory, now.cpu, now.dma);
        record_of_step(regs, now, value, dma_value)
    }

    // Makes a step that breaks no rule, whose access read this value.
    #[inline(always)]
    fn perform(
        &mut self,
        regs: &[u16; 16],
        acceptance: Option<u16>,
        now: &Signals,
        value: u16,
        keeps: bool,
    )
        ensures kept { keeps ≡ true → IsSome self.new.last }
        ensures signals { KeepsSignals self.new.last (Some now.now) }
        ensures stands { Performs G.flag self.old regs.now acceptance now.now value self.new }
    {
        if !is_kept(keeps, now) && self.keeps_flags(now) {
            self.perform_alone(regs, acceptance, now, value);
        } else {
            self.perform_watched(regs, acceptance, *now, value);
        }
    }

    // Whether memory shows the second flag as it is, and a step that is about to do this leaves
    // both flags so.
    #[inline(always)]
    fn keeps_flags(&self, now: &Signals) -> bool
        ensures { (start : Start) (logs : Logs)
            → BusStandsFor G.flag self.now start logs
            → result ≡ true
            → KeepsFlags G.flag start logs now.now }
    {
        self.leaves_flags(now) && self.shows_second_flag()
    }

    // Whether memory shows the second flag as it is.
    #[inline(always)]
    fn shows_second_flag(&self) -> bool
        ensures { (start : Start) (logs : Logs)
            → BusStandsFor G.flag self.now start logs
            → result ≡ true
            → aux_of start logs ≡ G.flag.value (map blank_seen logs.records) }
    {
        self.memory.shows_aux() == self.monitors.aux()
    }

    // Whether a step that is about to do this leaves both flags as they are. Where neither is set
    // nothing looks at the bounds.
    #[inline(always)]
    fn leaves_flags(&self, now: &Signals) -> bool
        ensures { (start : Start) (logs : Logs) (entry : BusRecord)
            → BusStandsFor G.flag self.now start logs
            → IsRecordOf now.now entry
            → result ≡ true
            → LeavesFlags G.flag (record { entry = entry; bounds = logged_bounds start logs })
            logs.records }
    {
        self.monitors.stay_clear(now.pc, self.memory.er_min())
            || self.monitors.stay(now, &self.memory.bounds())
    }

    // Makes a step that breaks no rule and has no line, and leaves both flags as they are and as
    // they are shown. It is not kept.
    #[inline(always)]
    #[tactic(auto, unfolding(device_trace::specs::Logs::with_record))]
    fn perform_alone(
        &mut self,
        regs: &[u16; 16],
        acceptance: Option<u16>,
        now: &Signals,
        value: u16,
    )
        ensures signals { KeepsSignals self.new.last (Some now.now) }
        ensures stands { (start : Start) (logs : Logs)
            → has_line (record_performed start logs regs.now now.now) ≡ false
            → KeepsFlags G.flag start logs now.now
            → PerformsFrom start logs G.flag self.old regs.now acceptance now.now value self.new }
    {
        let entry = self.make(regs, now, value);
        self.peripherals.finish_step(&entry, acceptance);
        self.monitors.pass(entry.pc);
        keep_none(&mut self.last);
    }

    // Makes any step that breaks no rule, and keeps it. The signals are copied, so that other steps
    // keep none in memory.
    #[inline(never)]
    #[tactic(auto, unfolding(device_trace::specs::Logs::with_record))]
    fn perform_watched(
        &mut self,
        regs: &[u16; 16],
        acceptance: Option<u16>,
        now: Signals,
        value: u16,
    )
        ensures kept { IsSome self.new.last }
        ensures signals { KeepsSignals self.new.last (Some now) }
        ensures stands { Performs G.flag self.old regs.now acceptance now value self.new }
    {
        let bounds = self.memory.bounds();
        let entry = self.make(regs, &now, value);
        self.peripherals.finish_step(&entry, acceptance);
        self.watch(LastStep {
            refused: None,
            bounds,
            entry,
        });
    }

    // Of a step that breaks a rule: makes no access, and resets all that is reached over the bus
    // but memory and pins. The signals are copied, so that other steps keep none in memory.
    #[inline(never)]
    #[tactic(auto, unfolding(device_trace::specs::Logs::with_record))]
    fn refuse(&mut self, regs: &[u16; 16], now: Signals)
        ensures kept { IsSome self.new.last }
        ensures signals { KeepsSignals self.new.last (Some now) }
        ensures stands { (start : Start) (logs : Logs) (value dma_value : ℕ)
            → BusStandsFor G.flag self.old start logs
            → is_none (first_rule (last_pc logs.records) now) ≡ false
            → BusStandsFor G.flag self.new start (with_record start logs
            (record_from regs.now now (first_rule (last_pc logs.records) now) value dma_value)) }
    {
        let rule = self.monitors.broken_rule(&now);
        let bounds = self.memory.bounds();
        self.peripherals.clear();
        let entry = record_of_refusal(regs, &now, rule);
        self.watch(LastStep {
            refused: Some(now),
            bounds,
            entry,
        });
    }

    /// Tries the rules, and makes the step of this turn where none is broken, in which the DMA asks
    /// for this access. What the access of processor or ROM read, `None` where the step is refused.
    /// The step is kept where that is asked for and where it has a line.
    #[inline(always)]
    pub fn act(
        &mut self,
        regs: &[u16; 16],
        turn: &Turn,
        dma: &Option<Access>,
        script_reset: bool,
        keeps: bool,
    ) -> Option<u16>
        ensures kept { keeps ≡ true → IsSome self.new.last }
        ensures answer { AnswersTurn G.flag self.old regs.now turn.now dma.now script_reset result }
        ensures stands { MakesTurn G.flag self.old regs.now turn.now dma.now script_reset self.new }
    {
        if CR.contains(turn.pc) {
            self.act_in_rom(regs, *turn, *dma, script_reset, keeps)
        } else {
            self.act_anywhere(regs, turn, *dma, script_reset, keeps)
        }
    }

    /// The region of calm steps from here on: above the ROM, and ER where a flag is set. `None`
    /// where there are none.
    #[inline(always)]
    pub fn calm_region(&self) -> Option<Region>
        ensures { (start : Start) (logs : Logs)
            → BusStandsFor G.flag self.now start logs
            → IfSome result (λ code. IsCalmRegion G.flag code start logs) }
    {
        if self.dma_access().is_some() {
            return None;
        }
        let code = self.watched_region();
        if is_above_rom(code) && self.monitors.ran_inside(code) && self.shows_second_flag() {
            Some(code)
        } else {
            None
        }
    }

    // ER where a flag is set, else all that is above the ROM.
    fn watched_region(&self) -> Region
        ensures { (start : Start) (logs : Logs)
            → BusStandsFor G.flag self.now start logs
            → has_flag G.flag logs.records ≡ true
            → result ≡ executable_region (logged_bounds start logs) }
    {
        if self.monitors.has_flag() {
            self.memory.bounds().executable_region()
        } else {
            ABOVE_ROM
        }
    }

    /// What the access of this turn reads, where its step is calm with code in this region and
    /// leaves both flags as they are. An opcode fetch may still read an illegal word.
    #[inline(always)]
    pub fn read_calmly(&self, turn: &Turn, code: Region) -> Option<u16>
        ensures { (start : Start) (logs : Logs) (regs : Registers)
            → BusStandsFor G.flag self.now start logs
            → TurnStandsFor regs turn.now start logs
            → IsCalmRegion G.flag code start logs
            → IfSome result (λ value. ReadsCalmly G.flag code start logs value) }
    {
        if !is_calm(code, turn) {
            return None;
        }
        let value = value_read(&self.memory, &self.peripherals, turn.access);
        let now = signals(turn, value, None, false);
        if self.monitors.stay_where_quiet(&now, &self.memory.bounds()) {
            Some(value)
        } else {
            None
        }
    }

    /// Makes the calm step of this turn.
    #[inline(always)]
    #[tactic(auto, unfolding(device_trace::specs::Logs::with_record))]
    pub fn end_calm_step(&mut self, turn: &Turn)
        requires { self.old.last ≡ None }
        ensures last { self.new.last ≡ None }
        ensures stands { (start : Start) (logs : Logs)
            (regs : Registers) (code : Region) (value : ℕ)
            → BusStandsFor G.flag self.old start logs
            → TurnStandsFor regs turn.now start logs
            → IsCalmRegion G.flag code start logs
            → ReadsCalmly G.flag code start logs value
            → breaks_i1 (signals_of start logs false) ≡ false
            → BusStandsFor G.flag self.new start (logs_after_step start logs false) }
    {
        let _ = exchange(&mut self.memory, turn.access, None);
        self.peripherals.timer.tick();
        self.monitors.pass(turn.pc);
    }

    // A step in the ROM, apart from the other steps, which are shorter by that. The turn and the
    // DMA's access are copied, so that other steps keep none in memory.
    #[inline(never)]
    fn act_in_rom(
        &mut self,
        regs: &[u16; 16],
        turn: Turn,
        dma: Option<Access>,
        script_reset: bool,
        keeps: bool,
    ) -> Option<u16>
        ensures kept { keeps ≡ true → IsSome self.new.last }
        ensures answer { AnswersTurn G.flag self.old regs.now turn dma script_reset result }
        ensures stands { MakesTurn G.flag self.old regs.now turn dma script_reset self.new }
    {
        self.act_anywhere(regs, &turn, dma, script_reset, keeps)
    }

    // A step wherever `pc` is.
    #[inline(always)]
    fn act_anywhere(
        &mut self,
        regs: &[u16; 16],
        turn: &Turn,
        dma: Option<Access>,
        script_reset: bool,
        keeps: bool,
    ) -> Option<u16>
        ensures kept { keeps ≡ true → IsSome self.new.last }
        ensures answer { AnswersTurn G.flag self.old regs.now turn.now dma script_reset result }
        ensures stands { MakesTurn G.flag self.old regs.now turn.now dma script_reset self.new }
    {
        let value = value_read(&self.memory, &self.peripherals, turn.access);
        let now = signals(turn, value, dma, script_reset);
        if self.monitors.permits(&now) {
            self.perform(regs, turn.acceptance, &now, value, keeps);
            Some(value)
        } else {
            self.refuse(regs, now);
            None
        }
    }
}

impl<G: TraceFlag + Copy> Bus<G> {
    ghost use Rattle.device_core.specs.Bus.{BusStandsFor};

    /// A bus at which the same happened.
    pub fn try_clone(&self, alloc: Global) -> Result<Bus<G>, AllocError>
        ensures stands { (start : Start) (logs : Logs)
            → BusStandsFor G.flag self.now start logs
            → IfOk result (λ other. BusStandsFor G.flag other start logs) }
        ensures last { IfOk result (λ other. other.last ≡ self.now.last) }
    {
        Ok(Bus {
            memory: self.memory.try_clone(alloc)?,
            peripherals: self.peripherals.try_clone(alloc)?,
            monitors: self.monitors.duplicate(),
            last: self.last,
        })
    }
}
