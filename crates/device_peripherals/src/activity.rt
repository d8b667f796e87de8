ghost use Rattle.std.specs.Prelude.{◌≡◌, ◌%◌, ◌<◌, IfSome};
ghost use Rattle.device_types.specs.Access.{IsFormed};
ghost use Rattle.part_definitions.specs.{Dma.{new_transfer, transfer_access, is_active, after_start, after_access}, Part.{Answers, Becomes}};

use device_types::{Access, even};
use word_arith::Size;

/// What is left of a transfer: the places of its next word, and the number of its words.
#[derive(Clone, Copy, Debug)]
pub struct Job {
    pub source: u16,
    pub destination: u16,
    pub words: u16,
    ghost even_source: { source % 2 ≡ 0 },
    ghost even_destination: { destination % 2 ≡ 0 },
    ghost some_words: { 0 < words },
}

/// What the engine does next.
#[derive(Clone, Copy, Debug)]
pub enum Activity {
    Idle,
    Reads(Job),
    /// Writes the word that it read, which is in the latch.
    Writes(Job, u16),
}

impl Activity {
    ghost use Rattle.device_peripherals.specs.Dma.{ActivityStandsFor};

    /// The beginning of a transfer; of no words there is none.
    pub fn begin(source: u16, destination: u16, words: u16) -> Activity
        ensures { ActivityStandsFor result (new_transfer source destination words) }
    {
        if words == 0 {
            Activity::Idle
        } else {
            Activity::Reads(Job {
                source: even(source),
                destination: even(destination),
                words,
            })
        }
    }

    /// What it does after a start, which is ignored while a transfer is active.
    pub fn after_start(self, source: u16, destination: u16, words: u16) -> Activity
        ensures { Becomes ActivityStandsFor self
            (λ transfer. after_start transfer (new_transfer source destination words)) result }
    {
        if self.is_active() {
            self
        } else {
            Activity::begin(source, destination, words)
        }
    }

    pub fn is_active(self) -> bool
        ensures { Answers ActivityStandsFor self is_active result }
    {
        !matches!(self, Activity::Idle)
    }

    pub fn access(self) -> Option<Access>
        ensures access { Answers ActivityStandsFor self transfer_access result }
        ensures formed { IfSome result IsFormed }
    {
        match self {
            Activity::Idle => None,
            Activity::Reads(job) => Some(Access::Read(job.source, Size::Word)),
            Activity::Writes(job, word) => Some(Access::Write(job.destination, Size::Word, word)),
        }
    }

    /// The access was made and gave this value: it goes on to the next one, if there is one.
    #[inline(always)]
    pub fn advance(&mut self, value: u16)
        ensures { Becomes ActivityStandsFor self.old
            (λ transfer. after_access transfer value) self.new }
    {
        match *self {
            Activity::Idle => {}
            Activity::Reads(job) => *self = Activity::Writes(job, value),
            Activity::Writes(job, _) if job.words == 1 => *self = Activity::Idle,
            Activity::Writes(job, _) => {
                *self = Activity::Reads(Job {
                    source: job.source.wrapping_add(2),
                    destination: job.destination.wrapping_add(2),
                    words: job.words - 1,
                })
            }
        }
    }
}
