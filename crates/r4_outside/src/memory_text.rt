//! A source and a sink in memory.

ghost use Rattle.std.specs.Prelude.{◌≡◌, ◌≤◌, [], ◌∷◌, ◌++◌, Some, IfOk, OnOk, OnErr, vec_len};
ghost use Rattle.r4_outside.specs.Source.{SourceState};
ghost use Rattle.r4_outside.specs.Sink.{SinkState};

use crate::failing::{counted, missed};
use crate::{Failed, Sink, Source};
use r4_base::Memory;
use std::alloc::Global;

/// A source over a list of bytes.
#[derive(Drop)]
pub struct MemorySource {
    bytes: Vec<u8>,
    at: usize,
    fails: Vec<u64>,
    made: u64,
    faults: u64,

    ghost within: { at ≤ vec_len bytes },
}

impl MemorySource {
    ghost use Rattle.r4_outside.specs.MemoryText.{source_state, source_fails, source_calls};

    /// A source of these bytes. The only error is want of memory.
    pub fn new(alloc: Global, bytes: &[u8]) -> Result<MemorySource, Memory>
        ensures rest { IfOk result (λ s. (source_state s).rest ≡ Some bytes.now) }
        ensures faults { IfOk result (λ s. (source_state s).faults ≡ 0) }
        ensures plan { IfOk result (λ s. source_fails s ≡ []) }
        ensures calls { IfOk result (λ s. source_calls s ≡ 0) }
    {
        Ok(MemorySource {
            bytes: bytes.to_vec(alloc)?,
            at: 0,
            fails: Vec::new(alloc),
            made: 0,
            faults: 0,
        })
    }

    /// The read of that number is to fail, counted from 1. A read that fails takes nothing. The only error is want of
    /// memory.
    pub fn fail(&mut self, alloc: Global, call: u64) -> Result<(), Memory>
        ensures same { source_state self.new ≡ source_state self.old }
        ensures noted { OnOk result (source_fails self.new ≡ source_fails self.old ++ call ∷ []) }
        ensures calls { source_calls self.new ≡ source_calls self.old }
        ensures err { OnErr result (source_fails self.new ≡ source_fails self.old) }
    {
        let _ = alloc;
        self.fails.push(call)?;
        Ok(())
    }
}

impl Source for MemorySource {
    ghost use Rattle.std.specs.Prelude.{◌↔◌, Contains, IsErr, OnErr, ◌≡◌};
    ghost use Rattle.r4_outside.specs.Device.{next};
    ghost use Rattle.r4_outside.specs.Source.{Takes};
    ghost use Rattle.r4_outside.specs.MemoryText.{source_state, source_fails, source_calls};

    ghost state = { source_state };

    fn read(&mut self, into: &mut [u8]) -> Result<usize, Failed>
        ensures takes { Takes into.old into.new (source_state self.old) result (source_state self.new) }
        ensures kept { OnErr result ((source_state self.new).rest ≡ (source_state self.old).rest) }
        ensures fails { IsErr result ↔ Contains (source_fails self.old) (next (source_calls self.old)) }
        ensures plan { source_fails self.new ≡ source_fails self.old }
        ensures calls { source_calls self.new ≡ next (source_calls self.old) }
    {
        if counted(&self.fails, &mut self.made) {
            return Err(missed(&mut self.faults));
        }
        let rest = &self.bytes[self.at..];
        let count = into.len().min(rest.len());
        into[..count].copy_from_slice(&rest[..count]);
        self.at += count;
        Ok(count)
    }

    fn faults(&self) -> u64 {
        self.faults
    }
}

/// A sink that keeps the bytes.
#[derive(Drop)]
pub struct MemorySink {
    bytes: Vec<u8>,
    fails: Vec<u64>,
    made: u64,
    faults: u64,
}

impl MemorySink {
    ghost use Rattle.r4_outside.specs.MemoryText.{sink_state, sink_fails, sink_calls, sink_room};

    /// An empty sink that takes no memory up to `room` bytes in all. A write past them that finds none appends nothing
    /// and fails. The only error is want of memory.
    pub fn new(alloc: Global, room: usize) -> Result<MemorySink, Memory>
        ensures written { IfOk result (λ s. (sink_state s).written ≡ Some []) }
        ensures faults { IfOk result (λ s. (sink_state s).faults ≡ 0) }
        ensures plan { IfOk result (λ s. sink_fails s ≡ []) }
        ensures calls { IfOk result (λ s. sink_calls s ≡ 0) }
        ensures room { IfOk result (λ s. room ≤ sink_room s) }
    {
        Ok(MemorySink {
            bytes: Vec::with_capacity(alloc, room)?,
            fails: Vec::new(alloc),
            made: 0,
            faults: 0,
        })
    }

    /// The bytes that were written so far.
    pub fn written(&self) -> &[u8]
        ensures { (sink_state self.now).written ≡ Some result.now }
    {
        &self.bytes
    }

    /// The write of that number is to fail, counted from 1. A write that fails appends nothing. The only error is want of
    /// memory.
    pub fn fail(&mut self, alloc: Global, call: u64) -> Result<(), Memory>
        ensures same { sink_state self.new ≡ sink_state self.old }
        ensures noted { OnOk result (sink_fails self.new ≡ sink_fails self.old ++ call ∷ []) }
        ensures calls { sink_calls self.new ≡ sink_calls self.old }
        ensures room { sink_room self.new ≡ sink_room self.old }
        ensures err { OnErr result (sink_fails self.new ≡ sink_fails self.old) }
    {
        let _ = alloc;
        self.fails.push(call)?;
        Ok(())
    }
}

impl Sink for MemorySink {
    ghost use Rattle.std.specs.Prelude.{◌⊎◌, ◌<◌, ◌≤◌, ◌+◌, length, Contains, IsErr, OnErr, ◌≡◌};
    ghost use Rattle.r4_outside.specs.Device.{next};
    ghost use Rattle.r4_outside.specs.Sink.{Appends};
    ghost use Rattle.r4_outside.specs.MemoryText.{sink_state, sink_fails, sink_calls, sink_room, written_of};

    ghost state = { sink_state };

    fn write(&mut self, bytes: &[u8]) -> Result<(), Failed>
        ensures appends { Appends bytes.now (sink_state self.old) result (sink_state self.new) }
        ensures kept { OnErr result ((sink_state self.new).written ≡ (sink_state self.old).written) }
        ensures fails { Contains (sink_fails self.old) (next (sink_calls self.old)) → IsErr result }
        ensures room { OnErr result (Contains (sink_fails self.old) (next (sink_calls self.old)) ⊎ (sink_room self.old < length bytes.now + length (written_of self.old))) }
        ensures kept_room { sink_room self.old ≤ sink_room self.new }
        ensures plan { sink_fails self.new ≡ sink_fails self.old }
        ensures calls { sink_calls self.new ≡ next (sink_calls self.old) }
    {
        if counted(&self.fails, &mut self.made) {
            return Err(missed(&mut self.faults));
        }
        let Ok(()) = self.bytes.extend_from_slice(bytes) else {
            return Err(missed(&mut self.faults));
        };
        Ok(())
    }

    fn faults(&self) -> u64 {
        self.faults
    }
}
