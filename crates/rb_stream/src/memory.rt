//! A source and a sink in memory, whose calls fail where they are told to. Tests and models of the shell use them.
ghost use Rattle.std.specs.Prelude.{ℕ, ◌≡◌, ◌≤◌, ◌+◌, ◌↔◌, [], ◌++◌, length, take, drop};
ghost use Rattle.std.specs.Prelude.{min, IsErr, IfOk, OnOk, OnErr};
ghost use Rattle.rb_base.specs.Counts.{IsCounted};
ghost use Rattle.rb_stream.specs.FaultPlan.{unused, IsFailing, called, faulted};
ghost use Rattle.rb_stream.specs.MemoryModel.{Refuses};
ghost use Rattle.rb_stream.specs.StreamModel.{Takes, Puts};

use crate::plan::FaultPlan;
use crate::{Sink, Source};
use rb_base::{Failed, NoMemory};
use std::alloc::Global;
use std::marker::Model;

/// A source over bytes in memory.
#[derive(Drop)]
pub struct MemSource {
    bytes: Vec<u8>,
    // where the bytes that are left begin
    at: usize,
    plan: FaultPlan,
}

impl Model for MemSource {
    ghost use Rattle.std.specs.Prelude.{◌≤◌, length, drop};
    ghost use Rattle.rb_stream.specs.MemoryModel.{SourceState};

    ghost Value = { SourceState };

    ghost view = { λ s. record { left = drop s.at s.bytes.items; plan = s.plan } };

    ghost invariant = { λ s. s.at ≤ length s.bytes.items };
}

impl MemSource {
    /// A source over a copy of the bytes. Its calls are numbered from 1, and just those in `failing` fail.
    pub fn new(alloc: Global, bytes: &[u8], failing: &[u64]) -> Result<MemSource, NoMemory>
        ensures bytes { IfOk result (λ s. s.left ≡ bytes.now) }
        ensures plan { IfOk result (λ s. s.plan ≡ unused failing.now) }
    {
        Ok(MemSource {
            bytes: bytes.to_vec(alloc).map_err(|_| NoMemory)?,
            at: 0,
            plan: FaultPlan::new(alloc, failing)?,
        })
    }
}

impl Source for MemSource {
    ghost tells = { Unit {0} };

    ghost left = { λ s. s.left };

    ghost faults = { λ s. s.plan.faults };

    /// Takes as many bytes as fit, unless the call is in the list.
    fn take(&mut self, into: &mut [u8]) -> Result<usize, Failed>
        ensures taken { Takes self.old.left self.new.left into.old into.new result }
        ensures whole { IfOk result (λ n. n ≡ min (length into.old) (length self.old.left)) }
        ensures counted { IsCounted self.old.plan.faults self.new.plan.faults result }
        ensures failed { IsErr result ↔ IsFailing self.old.plan }
        ensures ok { OnOk result (self.new.plan ≡ called self.old.plan) }
        ensures err { OnErr result (self.new.plan ≡ faulted (called self.old.plan)) }
    {
        if self.plan.begin() {
            return Err(self.plan.fail());
        }
        let left = &self.bytes[self.at..];
        let count = into.len().min(left.len());
        into[..count].copy_from_slice(&left[..count]);
        self.at += count;
        Ok(count)
    }
}

/// A sink that keeps the bytes in memory.
#[derive(Drop)]
pub struct MemSink {
    // as many as there is room for; the first `used` of them are those that it holds
    bytes: Vec<u8>,
    used: usize,
    plan: FaultPlan,
}

impl Model for MemSink {
    ghost use Rattle.std.specs.Prelude.{◌≤◌, length, take};
    ghost use Rattle.rb_stream.specs.MemoryModel.{SinkState};

    ghost Value = { SinkState };

    ghost view = { λ s. record { held = take s.used s.bytes.items; room = length s.bytes.items; plan = s.plan } };

    ghost invariant = { λ s. s.used ≤ length s.bytes.items };
}

impl MemSink {
    /// An empty sink with room for `room` bytes, all taken here. Its calls are numbered from 1, and just those in
    /// `failing` fail, and those that pass the room.
    pub fn new(alloc: Global, room: usize, failing: &[u64]) -> Result<MemSink, NoMemory>
        ensures empty { IfOk result (λ s. s.held ≡ []) }
        ensures room { IfOk result (λ s. s.room ≡ room) }
        ensures plan { IfOk result (λ s. s.plan ≡ unused failing.now) }
    {
        Ok(MemSink {
            bytes: vec![in alloc; 0; room].map_err(|_| NoMemory)?,
            used: 0,
            plan: FaultPlan::new(alloc, failing)?,
        })
    }

    /// The bytes that it holds.
    pub fn bytes(&self) -> &[u8]
        ensures { result.now ≡ self.now.held }
    {
        &self.bytes[..self.used]
    }
}

impl Sink for MemSink {
    ghost tells = { Unit {0} };

    ghost held = { λ s. s.held };

    ghost faults = { λ s. s.plan.faults };

    /// Adds the whole piece, or nothing where it fails.
    fn put(&mut self, bytes: &[u8]) -> Result<(), Failed>
        ensures added { Puts self.old.held self.new.held bytes.now result }
        ensures nothing { OnErr result (self.new.held ≡ self.old.held) }
        ensures room { self.new.room ≡ self.old.room }
        ensures counted { IsCounted self.old.plan.faults self.new.plan.faults result }
        ensures failed { IsErr result ↔ Refuses self.old (length bytes.now) }
        ensures ok { OnOk result (self.new.plan ≡ called self.old.plan) }
        ensures err { OnErr result (self.new.plan ≡ faulted (called self.old.plan)) }
    {
        if self.plan.begin() {
            return Err(self.plan.fail());
        }
        if self.bytes.len() - self.used < bytes.len() {
            return Err(self.plan.fail());
        }
        let end = self.used + bytes.len();
        self.bytes[self.used..end].copy_from_slice(bytes);
        self.used = end;
        Ok(())
    }
    /// Nobody watches bytes in memory.
    fn show_progress(&self, _done: u32, _all: u32) {}
}
