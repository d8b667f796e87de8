ghost use Rattle.std.specs.Prelude.{◌≡◌, ◌≤◌, ◌↔◌, Contains, IsTrue};
ghost use Rattle.outside_edge.specs.Calls.{with_call, with_fault, Rose};

use std::marker::Model;

/// Counts calls and faults, of one that is to fail in the calls of some numbers.
#[derive(Drop)]
pub struct FailingCalls {
    failing: Vec<u64>,
    calls: u64,
    faults: u64,
}

impl Model for FailingCalls {
    ghost use Rattle.outside_edge.specs.Calls.{CallCounts};

    ghost Value = { CallCounts };

    ghost view = { λ counts. record {
      failing = counts.failing.items;
      calls = counts.calls;
      faults = counts.faults;
    } };
}

impl FailingCalls {
    /// Before the first call, which has the number 1.
    pub fn new(failing: Vec<u64>) -> FailingCalls
        ensures { result ≡ record { failing = failing.items; calls = 0; faults = 0 } }
    {
        FailingCalls {
            failing,
            calls: 0,
            faults: 0,
        }
    }

    /// Counts a call, and tells whether it is to fail.
    pub fn count_call(&mut self) -> bool
        ensures told { IsTrue result ↔ Contains self.old.failing self.new.calls }
        ensures counted { self.new ≡ with_call self.old }
    {
        self.calls = self.calls.saturating_add(1);
        self.failing.contains(&self.calls)
    }

    /// Counts a fault.
    pub fn count_fault(&mut self)
        ensures counted { self.new ≡ with_fault self.old }
        ensures rose { Rose self.old.faults self.new.faults }
        ensures kept { self.old.faults ≤ self.new.faults }
    {
        self.faults = self.faults.saturating_add(1);
    }
}
