//! An image in a file: the edge where what is proved meets the system.

ghost use Rattle.std.specs.Prelude.{◌*◌, ◌<◌, ◌^◌, ◌≡◌, ◌≤◌, ◌-◌, IfSome, OnOk};
ghost use Rattle.r4_outside.specs.Device.{next};
ghost use Rattle.r4_devices.specs.File.{IsNoted};

use crate::trouble::{FileCall, Trouble};
use r4_base::{BLOCK_BYTES, Block, BlockNo};
use r4_outside::{Device, Failed, missed};
use std::fs::{OpenFile, OpenOptions};
use std::io;
use std::io::{ErrorKind, Seek, SeekFrom};
use std::marker::Model;
use std::os::unix::fs::FileExt;
use std::rt::Files;

/// The blocks of a file, counted once. Where the file cannot be opened every call fails. A file that may not be written
/// is opened for reading, and then each write of it fails.
#[derive(Drop)]
pub struct FileDevice<F: Seek + FileExt + OpenFile + Drop> {
    file: Option<F>,
    blocks: u64,
    clock: u64,
    faults: u64,
    unwritable: Option<io::Error>,
    trouble: Option<Trouble>,
}

impl<F: Seek + FileExt + OpenFile + Drop> Model for FileDevice<F> {
    ghost use Rattle.std.specs.Prelude.{◌*◌, ◌<◌, ◌^◌};
    ghost use Rattle.r4_devices.specs.File.{FileView};

    ghost Value = { FileView };

    ghost view = { λ d. record {
      blocks = d.blocks;
      clock = d.clock;
      faults = d.faults;
      trouble = d.trouble;
    } };

    ghost invariant = { λ d. d.blocks * 4096 < 2 ^ 64 };
}

impl<F: Seek + FileExt + OpenFile + Drop> FileDevice<F> {
    /// The file of that name, for reading and writing, or for reading where it may not be written. It is not made where
    /// there is none. No call is counted yet.
    pub fn open<X: Files<File = F>>(rt: &X, name: &str) -> FileDevice<F>
        ensures counts { (result.clock ≡ 0) × (result.faults ≡ 0) }
        ensures trouble { IfSome result.trouble (λ t. t.call ≡ FileCall.Open) }
    {
        match opened(rt, name) {
            Ok((file, bytes, unwritable)) => FileDevice {
                file: Some(file),
                blocks: bytes / BLOCK_BYTES,
                clock: 0,
                faults: 0,
                unwritable,
                trouble: None,
            },
            Err(error) => FileDevice {
                file: None,
                blocks: 0,
                clock: 0,
                faults: 0,
                unwritable: None,
                trouble: Some(Trouble {
                    call: FileCall::Open,
                    error,
                }),
            },
        }
    }

    /// The first call that failed, and why; also why the file could not be opened.
    pub fn trouble(&self) -> Option<Trouble>
        ensures { result ≡ self.now.trouble }
    {
        self.trouble
    }
}

// The file, how many bytes it has, and why it may not be written where that is so. The size is that of the end to which
// the system goes, since a block device has no other.
fn opened<X: Files>(rt: &X, name: &str) -> io::Result<(X::File, u64, Option<io::Error>)> {
    let mut unwritable = None;
    let mut file = match OpenOptions::new().read(true).write(true).open(rt, name) {
        Ok(file) => file,
        Err(error) if may_be_read(error) => {
            unwritable = Some(error);
            OpenOptions::new().read(true).open(rt, name)?
        }
        Err(error) => return Err(error),
    };
    let bytes = file.seek(SeekFrom::End(0))?;
    Ok((file, bytes, unwritable))
}

// Whether a file that may not be opened for writing may still be opened for reading.
fn may_be_read(error: io::Error) -> bool {
    matches!(
        error.kind(),
        ErrorKind::PermissionDenied | ErrorKind::ReadOnlyFilesystem
    )
}

// Lets the clock rise by one. At its end it stands, and nothing may be touched.
fn tick(clock: &mut u64) -> io::Result<()>
    ensures next { clock.new ≡ next clock.old }
    ensures no_less { clock.old ≤ clock.new }
    ensures over { clock.old ≡ 2 ^ 64 - 1 → OnOk result ⊥ }
{
    if *clock == u64::MAX {
        return Err(io::Error::other("no more calls can be counted"));
    }
    *clock += 1;
    Ok(())
}

// Every call of a file that was not opened fails. Why it was not is kept since then.
fn open_file<F>(file: &Option<F>) -> io::Result<&F> {
    file.as_ref().ok_or(io::Error::from(ErrorKind::NotFound))
}

// One system call reads a block, where the file gives it whole.
fn read_block<F: FileExt>(file: &Option<F>, at: BlockNo, into: &mut Block) -> io::Result<()>
    requires { at.0 * 4096 < 2 ^ 64 }
{
    open_file(file)?.read_exact_at(into.bytes_mut(), at.0 * BLOCK_BYTES)
}

impl<F: Seek + FileExt + OpenFile + Drop> FileDevice<F> {
    // One system call writes a block, where the file takes it whole.
    fn write_block(&mut self, at: BlockNo, from: &Block) -> io::Result<()>
        requires { at.0 < self.old.blocks }
        ensures clock { self.new ≡ record self.old { clock = next self.old.clock } }
        ensures no_less { self.old.clock ≤ self.new.clock }
        ensures over { self.old.clock ≡ 2 ^ 64 - 1 → OnOk result ⊥ }
    {
        tick(&mut self.clock)?;
        if let Some(error) = self.unwritable {
            return Err(error);
        }
        open_file(&self.file)?.write_all_at(from.bytes(), at.0 * BLOCK_BYTES)
    }

    // The size of the file never changes, so its data and what is needed to find them are all that has to be synced.
    fn sync_blocks(&mut self) -> io::Result<()>
        ensures clock { self.new ≡ record self.old { clock = next self.old.clock } }
        ensures no_less { self.old.clock ≤ self.new.clock }
        ensures over { self.old.clock ≡ 2 ^ 64 - 1 → OnOk result ⊥ }
    {
        tick(&mut self.clock)?;
        open_file(&self.file)?.sync_data()
    }

    // Counts a call that failed, and keeps it where it is the first.
    fn missed(&mut self, call: FileCall, error: io::Error) -> Failed
        ensures faults { self.new ≡ record self.old {
          faults = next self.old.faults;
          trouble = self.new.trouble;
        } }
        ensures no_less { self.old.faults ≤ self.new.faults }
        ensures noted { IsNoted call self.old.trouble self.new.trouble }
    {
        if self.trouble.is_none() {
            self.trouble = Some(Trouble { call, error });
        }
        missed(&mut self.faults)
    }
}

impl<F: Seek + FileExt + OpenFile + Drop + Send> Device for FileDevice<F> {
    ghost use Rattle.std.specs.Prelude.{◌≡◌, ◌<◌, OnErr, OnOk};
    ghost use Rattle.r4_outside.specs.Device.{Counts, Reads, Syncs, Writes};
    ghost use Rattle.r4_devices.specs.File.{IsNoted, file_told};

    ghost state = { λ d. file_told d };

    fn blocks(&mut self) -> Result<u64, Failed>
        ensures counts { Counts (file_told self.old) result (file_told self.new) }
        ensures noted { OnErr result (IsNoted FileCall.Open self.old.trouble self.new.trouble) }
        ensures kept { OnOk result (self.new.trouble ≡ self.old.trouble) }
    {
        match open_file(&self.file) {
            Ok(_) => Ok(self.blocks),
            Err(error) => Err(self.missed(FileCall::Open, error)),
        }
    }

    fn read(&mut self, at: BlockNo, into: &mut Block) -> Result<(), Failed>
        requires { at.0 < self.old.blocks }
        ensures reads { Reads at.0 into.new (file_told self.old) result (file_told self.new) }
        ensures noted { OnErr result
            (IsNoted (FileCall.Read at) self.old.trouble self.new.trouble) }
        ensures kept { OnOk result (self.new.trouble ≡ self.old.trouble) }
    {
        match read_block(&self.file, at, into) {
            Ok(()) => Ok(()),
            Err(error) => Err(self.missed(FileCall::Read(at), error)),
        }
    }

    fn write(&mut self, at: BlockNo, from: &Block) -> Result<(), Failed>
        requires { at.0 < self.old.blocks }
        ensures writes { Writes at.0 from.now (file_told self.old) result (file_told self.new) }
        ensures noted { OnErr result
            (IsNoted (FileCall.Write at) self.old.trouble self.new.trouble) }
        ensures kept { OnOk result (self.new.trouble ≡ self.old.trouble) }
    {
        match self.write_block(at, from) {
            Ok(()) => Ok(()),
            Err(error) => Err(self.missed(FileCall::Write(at), error)),
        }
    }

    fn sync(&mut self) -> Result<(), Failed>
        ensures syncs { Syncs (file_told self.old) result (file_told self.new) }
        ensures noted { OnErr result (IsNoted FileCall.Sync self.old.trouble self.new.trouble) }
        ensures kept { OnOk result (self.new.trouble ≡ self.old.trouble) }
    {
        match self.sync_blocks() {
            Ok(()) => Ok(()),
            Err(error) => Err(self.missed(FileCall::Sync, error)),
        }
    }

    fn clock(&self) -> u64 {
        self.clock
    }

    fn faults(&self) -> u64 {
        self.faults
    }
}
