//! A sink in memory, which fails at the calls that it is told and where it is full.
ghost use Rattle.std.specs.Prelude.{◌≡◌, ◌<◌, ◌≤◌, ◌+◌, ◌-◌, [], Some, IfOk, OnOk, OnErr, is_err, length, min};
ghost use Rattle.std.specs.Io.KnownBytes.{WriteAppends, Keeps};
ghost use Rattle.base_outside.specs.Faults.{CountsFaults, TakesSome};
ghost use Rattle.base_outside.specs.Plan.{fresh_plan, is_listed, after_call};
ghost use Rattle.base_outside.specs.Memory.{fails_next};

use crate::OutOfMemory;
use crate::ends::{Failed, Sink};
use crate::fault_plan::FaultPlan;
use std::alloc::Global;
use std::marker::Model;

/// A sink that keeps what it took, and counts how much of it wasn't flushed. It takes as many bytes
/// as it has room for, and fails where it has none, and at the calls that it was told. Its memory is
/// taken when it is made, and none later.
pub struct MemSink {
    bytes: Vec<u8>,
    kept: usize,
    room: usize,
    plan: FaultPlan,
}

/// A sink in memory is let go by one call wherever it is, which keeps proofs short.
impl Drop for MemSink {
    fn drop(self) {
        let MemSink {
            bytes,
            kept: _,
            room: _,
            plan,
        } = self;
        drop(bytes);
        drop(plan);
    }
}

impl Model for MemSink {
    ghost use Rattle.std.specs.Prelude.{◌≤◌, vec_len, vec_capacity};
    ghost use Rattle.base_outside.specs.Memory.{MemSinkView};

    ghost Value = { MemSinkView };

    ghost view = { λ s. record { taken = s.bytes.items; kept = s.kept; room = s.room; plan = s.plan } };

    ghost invariant = { λ s. (s.kept ≤ vec_len s.bytes) × (vec_len s.bytes ≤ s.room) × (s.room ≤ vec_capacity s.bytes) };
}

impl MemSink {
    /// A sink with room for `room` bytes. `failing` lists the numbers, from 0, of the calls that
    /// fail, where `write` and `flush` are numbered together. An error is lack of memory for the
    /// room.
    pub fn new(alloc: Global, room: usize, failing: Vec<u64>) -> Result<MemSink, OutOfMemory>
        ensures taken { IfOk result (λ s. (s.taken ≡ []) × (s.kept ≡ 0)) }
        ensures room { IfOk result (λ s. s.room ≡ room) }
        ensures plan { IfOk result (λ s. s.plan ≡ fresh_plan failing.items) }
    {
        Ok(MemSink {
            bytes: Vec::with_capacity(alloc, room)?,
            kept: 0,
            room,
            plan: FaultPlan::new(failing),
        })
    }

    /// The bytes that it took.
    pub fn bytes(&self) -> &[u8]
        ensures { result.now ≡ self.now.taken }
    {
        self.bytes.as_slice()
    }

    /// How many of them weren't flushed.
    pub fn unflushed(&self) -> usize
        ensures { result ≡ self.now.kept }
    {
        self.kept
    }
}

impl Sink for MemSink {
    ghost taken = { λ s. Some s.taken };

    ghost faults = { λ s. s.plan.faults };

    ghost kept_back = { λ s. s.kept };

    fn write(&mut self, bytes: &[u8]) -> Result<usize, Failed>
        requires { 0 < length bytes.now }
        ensures count { TakesSome result bytes.now }
        ensures bytes { WriteAppends (Some self.old.taken) (Some self.new.taken) result bytes.now }
        ensures kept { IfOk result (λ n. self.new.kept ≤ self.old.kept + n) }
        ensures cause { CountsFaults self.old.plan.faults self.new.plan.faults result }

        ensures exact { is_err result ≡ fails_next self.old }
        ensures plan { self.new.plan ≡ after_call self.old.plan (is_err result) }
        ensures room { self.new.room ≡ self.old.room }
        ensures full { IfOk result (λ n. n ≡ min (self.old.room - length self.old.taken) (length bytes.now)) }
        ensures counts { IfOk result (λ n. self.new.kept ≡ self.old.kept + n) }
    {
        let room_left = self.room - self.bytes.len();
        self.plan.call(room_left == 0)?;
        let count = room_left.min(bytes.len());
        self.bytes.extend_from_slice(&bytes[..count]).unwrap();
        self.kept += count;
        Ok(count)
    }

    fn flush(&mut self) -> Result<(), Failed>
        ensures bytes { Keeps (Some self.old.taken) (Some self.new.taken) }
        ensures handed { OnOk result (self.new.kept ≡ 0) }
        ensures cause { CountsFaults self.old.plan.faults self.new.plan.faults result }

        ensures exact { is_err result ≡ is_listed self.old.plan }
        ensures plan { self.new.plan ≡ after_call self.old.plan (is_err result) }
        ensures room { self.new.room ≡ self.old.room }
        ensures waits { OnErr result (self.new.kept ≡ self.old.kept) }
    {
        self.plan.call(false)?;
        self.kept = 0;
        Ok(())
    }
}
