//! A sink in memory with a room, some of whose writes fail.
ghost use Rattle.std.specs.Prelude.{◌≡◌, ℕ, ◌+◌, ◌≤◌, [], OnOk, OnErr, IfOk, Ok, Err, if◌then◌else◌};
ghost use Rattle.ipg_outside.specs.Faults.{Rose};
ghost use Rattle.ipg_outside.specs.Sink.{Takes, HandsOn, Breaks};
ghost use Rattle.ipg_outside.specs.Tray.{output_of, write_fails, after_write};

use crate::sink::{Sink, SinkFault};
use std::alloc::{AllocError, Global};
use std::marker::Model;

/// Keeps what is written, up to its room. The writes of given numbers fail.
#[derive(Drop)]
pub struct MemSink {
    bytes: Vec<u8>,
    room: usize,
    fail: Vec<u64>,
    writes: u64,
    faults: u64,
}

impl Model for MemSink {
    ghost use Rattle.std.specs.Prelude.{◌≤◌, vec_len, vec_capacity};
    ghost use Rattle.ipg_outside.specs.Tray.{Tray};

    ghost Value = { Tray };

    ghost view = { λ s. record { bytes = s.bytes.items; room = s.room; fail = s.fail.items; writes = s.writes; faults = s.faults } };

    ghost invariant = { λ s. (vec_len s.bytes ≤ s.room) × (s.room ≤ vec_capacity s.bytes) };
}

impl MemSink {
    /// Nothing written yet, and room for `room` bytes. A write whose number from 0 is in `fail`, or
    /// that passes the room, is Failed, and what fits of it is written all the same.
    pub fn new(alloc: Global, room: u64, fail: &[u64]) -> Result<MemSink, AllocError>
        ensures { IfOk result (λ tray. tray ≡ record { bytes = []; room = room; fail = fail.now; writes = 0; faults = 0 }) }
    {
        let room = room as usize;
        Ok(MemSink {
            bytes: Vec::with_capacity(alloc, room)?,
            room,
            fail: Vec::from_slice(alloc, fail)?,
            writes: 0,
            faults: 0,
        })
    }

    /// What was written.
    pub fn bytes(&self) -> &[u8]
        ensures { result.now ≡ self.now.bytes }
    {
        &self.bytes
    }
}

impl Sink for MemSink {
    ghost use Rattle.std.specs.Prelude.{◌≡◌, Some, OnOk, OnErr, ◌≤◌, [], Ok, Err, if◌then◌else◌};
    ghost use Rattle.ipg_outside.specs.Faults.{Rose};
    ghost use Rattle.ipg_outside.specs.Sink.{Takes, HandsOn, Breaks};
    ghost use Rattle.ipg_outside.specs.Tray.{output_of, write_fails, after_write};

    ghost output = { λ tray. Some (output_of tray) };

    ghost faults = { λ tray. tray.faults };

    fn write(&mut self, piece: &[u8]) -> Result<(), SinkFault>
        ensures taken { OnOk result (Takes piece.now (output_of self.old) (output_of self.new)) }
        ensures broken { OnErr result (Breaks piece.now (output_of self.old) (output_of self.new)) }
        ensures failed { OnErr result (Rose self.old.faults self.new.faults) }
        ensures counts { self.old.faults ≤ self.new.faults }
        ensures gives { result ≡ (if write_fails self.old piece.now then Err SinkFault.Failed else Ok tt) }
        ensures after { self.new ≡ after_write self.old piece.now }
    {
        let fits = piece.len().min(self.room - self.bytes.len());
        let has_failed = fits < piece.len() || self.fail.contains(&self.writes);
        self.bytes.extend_from_slice(&piece[..fits]).unwrap();
        self.writes = self.writes.saturating_add(1);
        if has_failed {
            self.faults = self.faults.saturating_add(1);
            return Err(SinkFault::Failed);
        }
        Ok(())
    }

    fn flush(&mut self) -> Result<(), SinkFault>
        ensures handed_on { OnOk result (HandsOn (output_of self.old) (output_of self.new)) }
        ensures broken { OnErr result (Breaks [] (output_of self.old) (output_of self.new)) }
        ensures failed { OnErr result (Rose self.old.faults self.new.faults) }
        ensures counts { self.old.faults ≤ self.new.faults }
        ensures gives { result ≡ Ok tt }
        ensures after { self.new ≡ self.old }
    {
        Ok(())
    }
}
