ghost use Rattle.std.specs.Prelude.{◌≡◌, ◌∷◌, [], true, false, not, List, ℕ, Some, IsTrue};
ghost use Rattle.device_types.specs.Access.{IsFormed};
ghost use Rattle.part_definitions.specs.{CpuRegister.{sp_of, with_pc, with_sp, allows_interrupts, is_asleep}, CpuAccess.accesses_of, Operand.state_at_start, NextAccess.{Asks, is_illegal, next_access, walk}, CpuState.{CpuState, Boundary, clear_cpu, registers_of, cpu_pc, is_at_boundary, is_entering, cpu_access, cpu_after, cpu_takes, entry_begun}, Part.{Answers, Becomes}};
ghost use Rattle.msp_exec.specs.{Course.{level_entered, level_begun, level_taken, is_entry, takes_value, instruction_course, entry_course, cpu_course, CpuStandsFor, Follows, Begins}, declared.phase.Phase.TheVariants.Boundary as AtBoundary, Order.accesses_from};

use crate::access::{bus_access, fetch_at, read_at, write_at};
use crate::instruction::{end, end_apart, learn, start};
use crate::phase::{EntryAccess, Phase};
use crate::register::{enter_handler, lowered_sp, pc_in, set_pc, set_sp, sp_in, sr_in};
use device_types::{Access, BusMaster};
use msp_decode::{Head, decode};
use part_definitions::{CpuAccess, WorkingState};
use word_arith::Size;

// The word of RETI.
const RETI: u16 = 0x1300;

/// The processor: its registers, and how far the current instruction or interrupt entry is.
#[derive(Clone, Copy, Debug)]
pub struct Cpu {
    // The registers at the last boundary.
    regs: [u16; 16],
    // The current instruction.
    head: Head,
    // What is known of it, and the registers as they are by now.
    work: WorkingState,
    // Its result, once that is written.
    number: u16,
    phase: Phase,
    // How many handlers were entered and not left.
    level: u64,
}

impl Cpu {
    /// A processor whose registers are 0, at a boundary.
    pub fn new() -> Cpu
        ensures stands { CpuStandsFor result clear_cpu }
        ensures level { result.level ≡ 0 }
    {
        Cpu {
            regs: [0; 16],
            head: Head::Reti,
            work: WorkingState {
                regs: [0; 16],
                source: 0,
                place: 0,
                destination: 0,
            },
            number: 0,
            phase: Phase::Boundary,
            level: 0,
        }
    }

    /// The registers at the last boundary.
    pub fn regs(&self) -> [u16; 16]
        ensures { Answers CpuStandsFor self.now registers_of result }
    {
        self.regs
    }

    /// Likewise, where they are kept.
    pub fn registers(&self) -> &[u16; 16]
        ensures { Answers CpuStandsFor self.now registers_of result.now }
    {
        &self.regs
    }

    /// Whether no instruction and no interrupt entry is in progress.
    pub fn at_boundary(&self) -> bool
        ensures { Answers CpuStandsFor self.now is_at_boundary result }
    {
        matches!(self.phase, Phase::Boundary)
    }

    /// Whether an interrupt entry is in progress.
    pub fn is_entering(&self) -> bool
        ensures { Answers CpuStandsFor self.now is_entering result }
    {
        matches!(self.phase, Phase::Entering(..))
    }

    /// The address of the current instruction; at a boundary the program counter.
    pub fn pc(&self) -> u16
        ensures { Answers CpuStandsFor self.now cpu_pc result }
    {
        pc_in(&self.regs)
    }

    /// The stack pointer at the last boundary.
    pub fn sp(&self) -> u16
        ensures { Answers CpuStandsFor self.now (λ state. sp_of (registers_of state)) result }
    {
        sp_in(&self.regs)
    }

    /// GIE at the last boundary.
    pub fn allows_interrupts(&self) -> bool
        ensures { Answers CpuStandsFor self.now
            (λ state. allows_interrupts (registers_of state)) result }
    {
        sr_in(&self.regs) / 8 % 2 == 1
    }

    /// CPUOFF at the last boundary.
    pub fn is_asleep(&self) -> bool
        ensures { Answers CpuStandsFor self.now (λ state. is_asleep (registers_of state)) result }
    {
        sr_in(&self.regs) / 16 % 2 == 1
    }

    /// How many handlers were entered and not left: one is entered when its interrupt is accepted,
    /// and left when a RETI begins.
    pub fn level(&self) -> u64
        ensures { result ≡ self.now.level }
    {
        self.level
    }

    /// At a boundary: sets the program counter and the stack pointer.
    pub fn start(&mut self, pc: u16, sp: u16)
        ensures stands { (regs : List ℕ)
            → CpuStandsFor self.old (Boundary regs)
            → CpuStandsFor self.new (Boundary (with_sp (with_pc regs pc) sp)) }
        ensures level { self.new.level ≡ self.old.level }
    {
        set_pc(&mut self.work.regs, pc);
        set_sp(&mut self.work.regs, sp);
        self.complete();
    }

    /// At a boundary: accepts an interrupt. The next three accesses enter the handler whose address
    /// is the word at `vector`.
    pub fn begin_irq(&mut self, vector: u16)
        ensures stands { (regs : List ℕ)
            → CpuStandsFor self.old (Boundary regs)
            → CpuStandsFor self.new (entry_begun regs vector) }
        ensures level { self.new.level ≡ level_entered self.old.level }
    {
        self.phase = Phase::Entering(EntryAccess::PushPc, vector);
        self.level = self.level.saturating_add(1);
    }

    #[tactic(auto, unfolding(part_definitions::specs::NextAccess::entry_access))]
    fn entry_access(&self, access: EntryAccess, vector: u16) -> Access
        ensures value { entry_course self.now.work.regs access vector [] ≡ Asks result }
        ensures formed { IsFormed result }
    {
        let regs = &self.work.regs;
        match access {
            EntryAccess::PushPc => write_at(Size::Word, lowered_sp(regs), pc_in(regs)),
            EntryAccess::PushSr => write_at(Size::Word, sp_in(regs).wrapping_sub(4), sr_in(regs)),
            EntryAccess::ReadVector => read_at(Size::Word, vector),
        }
    }

    #[inline(always)]
    #[tactic(auto, unfolding(part_definitions::specs::NextAccess::next_access))]
    fn phase_access(&self) -> Access
        ensures value { cpu_course self.now [] ≡ Asks result }
        ensures formed { IsFormed result }
    {
        match self.phase {
            Phase::Boundary => fetch_at(pc_in(&self.work.regs)),
            Phase::Executing(access) => { bus_access(&self.head, access, &self.work, self.number) }
            Phase::Entering(access, vector) => self.entry_access(access, vector),
        }
    }

    /// The access that it asks for; it always asks for one.
    #[inline(always)]
    #[tactic(auto, using(crate::proofs::Courses::cpu_access_some))]
    pub fn access(&self) -> Access
        ensures value { (state : CpuState)
            → CpuStandsFor self.now state
            → cpu_access state ≡ Some result }
        ensures formed { IsFormed result }
    {
        self.phase_access()
    }

    /// The access that it asks for at a boundary: an opcode fetch.
    #[inline(always)]
    #[tactic(auto, unfolding(part_definitions::specs::NextAccess::next_access))]
    pub fn opcode_fetch(&self) -> Access
        ensures value { (regs : List ℕ)
            → CpuStandsFor self.now (Boundary regs)
            → cpu_access (Boundary regs) ≡ Some result }
        ensures formed { IsFormed result }
    {
        fetch_at(pc_in(&self.regs))
    }

    #[inline(always)]
    fn complete(&mut self)
        ensures regs { self.new.regs ≡ self.old.work.regs }
        ensures working { self.new.work ≡ self.old.work }
        ensures phase { self.new.phase ≡ AtBoundary }
        ensures level { self.new.level ≡ self.old.level }
    {
        self.regs = self.work.regs;
        self.phase = Phase::Boundary;
    }

    // Goes on to an access of the instruction, or completes it. The result is computed once all
    // operands are known.
    #[inline(always)]
    fn advance(&mut self, next: Option<CpuAccess>)
        ensures follows { Follows self.new self.old.regs false
            (walk self.old.head (accesses_from self.old.head next) self.old.work) }
        ensures level { self.new.level ≡ self.old.level }
    {
        if matches!(next, None | Some(CpuAccess::WriteResult)) {
            self.number = end_apart(&mut self.work, &self.head);
        }
        match next {
            None => self.complete(),
            Some(access) => self.phase = Phase::Executing(access),
        }
    }

    // Begins an instruction. One that has no access but its opcode fetch is completed at once.
    #[inline(always)]
    fn begin_head(&mut self, head: &Head)
        ensures follows { Follows self.new self.old.regs false
            (walk head.now (accesses_of head.now)
            (state_at_start head.now self.old.work.regs)) }
        ensures level { self.new.level ≡ self.old.level }
    {
        match start(&mut self.work, head) {
            None => {
                let _ = end(&mut self.work, head);
                self.complete();
            }
            Some(access) => {
                self.head = *head;
                self.advance(Some(access));
            }
        }
    }

    // Begins the instruction of a word, if it is not illegal.
    #[inline(always)]
    #[tactic(auto, unfolding(part_definitions::specs::NextAccess::next_access))]
    fn begin_spelt(&mut self, word: u16) -> bool
        ensures taken { result ≡ not (is_illegal word) }
        ensures follows { result ≡ true → Begins self.old self.new word }
        ensures level { self.new.level ≡ self.old.level }
        ensures refused { result ≡ false → self.new ≡ self.old }
    {
        match decode(word) {
            Some(head) => {
                self.begin_head(&head);
                true
            }
            None => false,
        }
    }

    // Likewise, for words below 2000.
    #[inline(never)]
    fn begin_apart(&mut self, word: u16) -> bool
        ensures taken { result ≡ not (is_illegal word) }
        ensures follows { result ≡ true → Begins self.old self.new word }
        ensures level { result ≡ true → self.new.level ≡ level_begun self.old.level word }
        ensures refused { result ≡ false → self.new ≡ self.old }
    {
        if word == RETI {
            self.level = self.level.saturating_sub(1);
        }
        self.begin_spelt(word)
    }

    /// At a boundary: takes the word that was fetched, and begins its instruction. An illegal word
    /// is not taken: then the answer is false, and nothing changes.
    #[inline(never)]
    pub fn begin(&mut self, word: u16) -> bool
        ensures taken { result ≡ not (is_illegal word) }
        ensures follows { result ≡ true → Begins self.old self.new word }
        ensures stands { (regs : List ℕ)
            → CpuStandsFor self.old (Boundary regs)
            → result ≡ true
            → CpuStandsFor self.new (cpu_after (Boundary regs) word) }
        ensures level { result ≡ true → self.new.level ≡ level_begun self.old.level word }
        ensures refused { result ≡ false → self.new ≡ self.old }
    {
        self.begin_here(word)
    }

    /// Likewise, put into its caller. The compiler makes one for two operands and one for jumps,
    /// which is shorter than one for all.
    #[inline(always)]
    pub fn begin_here(&mut self, word: u16) -> bool
        ensures taken { result ≡ not (is_illegal word) }
        ensures follows { result ≡ true → Begins self.old self.new word }
        ensures stands { (regs : List ℕ)
            → CpuStandsFor self.old (Boundary regs)
            → result ≡ true
            → CpuStandsFor self.new (cpu_after (Boundary regs) word) }
        ensures level { result ≡ true → self.new.level ≡ level_begun self.old.level word }
        ensures refused { result ≡ false → self.new ≡ self.old }
    {
        if word >= 0x4000 {
            self.begin_spelt(word)
        } else if word >= 0x2000 {
            self.begin_spelt(word)
        } else {
            self.begin_apart(word)
        }
    }

    // An access of the instruction was made and gave this value.
    #[inline(always)]
    fn execute(&mut self, access: CpuAccess, value: u16)
        ensures follows { Follows self.new self.old.regs false
            (λ values. instruction_course self.old.head access self.old.work self.old.number
            (value ∷ values)) }
        ensures level { self.new.level ≡ self.old.level }
    {
        match access {
            CpuAccess::WriteResult => self.complete(),
            _ => {
                let next = learn(&mut self.work, &self.head, access, value);
                self.advance(next);
            }
        }
    }

    // An access of the interrupt entry was made and gave this value.
    #[inline(always)]
    #[tactic(auto, unfolding(part_definitions::specs::NextAccess::entry_access))]
    fn enter(&mut self, access: EntryAccess, vector: u16, value: u16)
        ensures follows { Follows self.new self.old.regs true
            (λ values. entry_course self.old.work.regs access vector (value ∷ values)) }
        ensures level { self.new.level ≡ self.old.level }
    {
        match access {
            EntryAccess::PushPc => self.phase = Phase::Entering(EntryAccess::PushSr, vector),
            EntryAccess::PushSr => self.phase = Phase::Entering(EntryAccess::ReadVector, vector),
            EntryAccess::ReadVector => {
                enter_handler(&mut self.work.regs, value);
                self.complete();
            }
        }
    }

    #[inline(always)]
    fn step(&mut self, value: u16) -> bool
        ensures taken { result ≡ takes_value self.old.phase value }
        ensures follows { result ≡ true
            → Follows self.new self.old.regs (is_entry self.old.phase)
            (λ values. cpu_course self.old (value ∷ values)) }
        ensures level { result ≡ true
            → self.new.level ≡ level_taken self.old.phase self.old.level value }
        ensures refused { result ≡ false → self.new ≡ self.old }
    {
        match self.phase {
            Phase::Boundary => return self.begin(value),
            Phase::Executing(access) => self.execute(access, value),
            Phase::Entering(access, vector) => self.enter(access, vector, value),
        }
        true
    }

    /// Takes what the access read, 0 for a write. An illegal word at an opcode fetch is not taken:
    /// then the answer is false, and nothing changes.
    #[inline(always)]
    #[tactic(auto, using(crate::proofs::Courses::takes_value_same))]
    pub fn try_take(&mut self, value: u16) -> bool
        ensures taken { Answers CpuStandsFor self.old (λ state. cpu_takes state value) result }
        ensures stands { (state : CpuState)
            → CpuStandsFor self.old state
            → result ≡ true
            → CpuStandsFor self.new (cpu_after state value) }
        ensures level { result ≡ true
            → self.new.level ≡ level_taken self.old.phase self.old.level value }
        ensures refused { result ≡ false → self.new ≡ self.old }
    {
        self.step(value)
    }
}

impl BusMaster for Cpu {
    ghost use Rattle.std.specs.Prelude.{IsTrue};
    ghost use Rattle.part_definitions.specs.CpuState.{CpuState, clear_cpu, cpu_access, cpu_after, cpu_takes};
    ghost use Rattle.msp_exec.specs.Course.{CpuStandsFor};

    ghost Meaning = { CpuState };

    ghost stands = { CpuStandsFor };

    ghost asks = { cpu_access };

    ghost takes = { λ state value. IsTrue (cpu_takes state value) };

    ghost after_take = { cpu_after };

    ghost after_clear = { λ state. clear_cpu };

    #[inline(always)]
    fn ask(&self) -> Option<Access> {
        Some(self.access())
    }

    fn take(&mut self, value: u16) {
        let _ = self.try_take(value);
    }

    fn clear(&mut self)
        ensures cleared { CpuStandsFor self.new clear_cpu }
        ensures stands { Becomes CpuStandsFor self.old (λ state. clear_cpu) self.new }
        ensures level { self.new.level ≡ 0 }
    {
        *self = Cpu::new();
    }
}
