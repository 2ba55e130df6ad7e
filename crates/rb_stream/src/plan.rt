//! Which calls of a stream in memory fail, by their numbers. `memory` counts its calls by it.
ghost use Rattle.std.specs.Prelude.{◌≡◌, ◌≤◌, ◌↔◌, IsTrue, IfOk};
ghost use Rattle.rb_stream.specs.FaultPlan.{unused, IsFailing, called, faulted};

use rb_base::{Failed, NoMemory};
use std::alloc::Global;
use std::marker::Model;

/// Calls that are to fail, and how many calls and faults there were, each up to 2^64 - 1.
#[derive(Drop)]
pub struct FaultPlan {
    failing: Vec<u64>,
    calls: u64,
    faults: u64,
}

impl Model for FaultPlan {
    ghost use Rattle.rb_stream.specs.FaultPlan.{Plan};

    ghost Value = { Plan };

    ghost view = { λ p. record { failing = p.failing.items; calls = p.calls; faults = p.faults } };
}

impl FaultPlan {
    /// No call yet. Of the calls, numbered from 1, those in the list are to fail.
    pub fn new(alloc: Global, failing: &[u64]) -> Result<FaultPlan, NoMemory>
        ensures { IfOk result (λ plan. plan ≡ unused failing.now) }
    {
        Ok(FaultPlan {
            failing: failing.to_vec(alloc).map_err(|_| NoMemory)?,
            calls: 0,
            faults: 0,
        })
    }

    /// Counts one more call, and tells whether it is to fail.
    pub fn begin(&mut self) -> bool
        ensures listed { IsTrue result ↔ IsFailing self.old }
        ensures counted { self.new ≡ called self.old }
    {
        self.calls = self.calls.saturating_add(1);
        self.failing.contains(&self.calls)
    }

    /// Counts a fault, and gives the error to answer with.
    pub fn fail(&mut self) -> Failed
        ensures counted { self.new ≡ faulted self.old }
        ensures no_less { self.old.faults ≤ self.new.faults }
    {
        self.faults = self.faults.saturating_add(1);
        Failed
    }
}
