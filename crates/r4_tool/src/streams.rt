//! Standard input and output. They tell nothing of the text that goes through them.

ghost use Rattle.std.specs.Prelude.{◌≡◌, OnErr, OnOk, IfOk};
ghost use Rattle.r4_outside.specs.Device.{next};

use circular_buffer::HeapCircularBuffer;
use r4_outside::{Failed, Sink, Source, missed};
use std::alloc::Global;
use std::io;
use std::io::{BufWriter, Read, Write};

/// How many bytes are gathered before standard output is written.
const GATHERED: usize = 65536;

/// How many bytes are remembered of what was written last: more than a line that names a fault has.
const REMEMBERED: usize = 64;

/// What a reader gives.
#[derive(Drop)]
pub struct InputText<R: Read + Drop> {
    reader: R,
    faults: u64,
}

impl<R: Read + Drop> InputText<R> {
    pub fn new(reader: R) -> InputText<R> {
        InputText { reader, faults: 0 }
    }
}

impl<R: Read + Drop> Source for InputText<R> {
    ghost use Rattle.r4_tool.specs.Edge.{input_state};

    ghost state = { λ s. input_state s.faults };

    fn read(&mut self, into: &mut [u8]) -> Result<usize, Failed> {
        let Ok(count) = self.reader.read(into) else {
            return Err(missed(&mut self.faults));
        };
        Ok(count)
    }

    fn faults(&self) -> u64 {
        self.faults
    }
}

/// A writer behind a buffer, which has to be flushed at the end.
#[derive(Drop)]
pub struct OutputText<W: Write + Drop> {
    out: BufWriter<W>,
    last: HeapCircularBuffer<u8>,
    faults: u64,
}

impl<W: Write + Drop> OutputText<W> {
    /// Takes the memory of the buffer.
    pub fn new(alloc: Global, writer: W) -> io::Result<OutputText<W>>
        ensures remembers { IfOk result (λ s. s.last.capacity ≡ 64) }
        ensures faults { IfOk result (λ s. s.faults ≡ 0) }
    {
        Ok(OutputText {
            out: BufWriter::with_capacity(alloc, GATHERED, writer)?,
            last: HeapCircularBuffer::with_capacity(alloc, REMEMBERED)?,
            faults: 0,
        })
    }

    /// Writes what was gathered.
    pub fn flush(&mut self) -> Result<(), Failed>
        ensures kept { OnOk result (self.new.faults ≡ self.old.faults) }
        ensures cause { OnErr result (self.new.faults ≡ next self.old.faults) }
    {
        let Ok(()) = self.out.flush() else {
            return Err(missed(&mut self.faults));
        };
        Ok(())
    }

    /// The last bytes of what was written, 64 or fewer.
    pub fn last(&mut self) -> &[u8]
        ensures { result.now ≡ self.old.last.items }
    {
        self.last.make_contiguous()
    }
}

impl<W: Write + Drop> Sink for OutputText<W> {
    ghost use Rattle.std.specs.Prelude.{◌≡◌, ◌++◌, OnOk};
    ghost use Rattle.circular_buffer.specs.Buffer.{keep_last};
    ghost use Rattle.r4_outside.specs.Sink.{Appends};
    ghost use Rattle.r4_tool.specs.Edge.{output_state};

    ghost state = { λ s. output_state s.faults };

    fn write(&mut self, bytes: &[u8]) -> Result<(), Failed>
        ensures appends { Appends bytes.now
            (output_state self.old.faults) result (output_state self.new.faults) }
        ensures capacity { self.new.last.capacity ≡ self.old.last.capacity }
        ensures last { OnOk result
            (self.new.last.items
            ≡ keep_last self.old.last.capacity (self.old.last.items ++ bytes.now)) }
    {
        let Ok(()) = self.out.write_all(bytes) else {
            return Err(missed(&mut self.faults));
        };
        self.last.extend_from_slice(bytes);
        Ok(())
    }

    fn faults(&self) -> u64 {
        self.faults
    }
}
