//! One file or directory of the workload: its names, and the commands that make it.

ghost use Rattle.std.specs.Prelude.{◌≡◌, ◌+◌, ◌*◌, ◌/◌, ◌%◌, ◌<◌, ◌++◌, IfOk};
ghost use Rattle.r4_gen.specs.Workload.{byte_of, directory_name, directory_path, file_made};
ghost use Rattle.r4_gen.specs.Workload.{file_name, file_path, size_of};

use r4_base::{Memory, Oid};
use r4_content::{Command, Name, Path};
use std::alloc::Global;

/// How many files each directory has.
pub const FILES: u64 = 100;
/// Sizes are below this number of bytes.
const SIZES: u64 = 2000;

/// Adds the commands that make the file, in a transaction.
pub fn make_file(
    alloc: Global,
    commands: &mut Vec<Command>,
    seed: u64,
    file: u64,
) -> Result<(), Memory>
    requires { file < 20000 }
    ensures { IfOk result (λ _. commands.new.items ≡ commands.old.items ++ file_made seed file) }
{
    let path = path_of_file(alloc, file)?;
    let filled = path.copy(alloc)?;
    commands.push(Command::Begin)?;
    commands.push(Command::Create { path, oid: Oid(0) })?;
    commands.push(Command::Fill {
        path: filled,
        offset: 0,
        len: size(seed, file),
        byte: b'a' + (file % 26) as u8,
    })?;
    commands.push(Command::End)?;
    Ok(())
}

// The size of the file, in bytes.
fn size(seed: u64, file: u64) -> u64
    requires { file < 20000 }
    ensures { result ≡ size_of seed file }
{
    (37 * file + 101 * (seed % SIZES)) % SIZES
}

/// The path of the file.
pub fn path_of_file(alloc: Global, file: u64) -> Result<Path, Memory>
    ensures { IfOk result (λ p. p ≡ file_path file) }
{
    let mut names = Vec::new(alloc);
    names.push(name_of_directory(alloc, file / FILES)?)?;
    names.push(name_of_file(alloc, file)?)?;
    Ok(Path::from_vec(names))
}

/// The path of the directory.
pub fn path_of_directory(alloc: Global, directory: u64) -> Result<Path, Memory>
    ensures { IfOk result (λ p. p ≡ directory_path directory) }
{
    let mut names = Vec::new(alloc);
    names.push(name_of_directory(alloc, directory)?)?;
    Ok(Path::from_vec(names))
}

// The name of the directory.
fn name_of_directory(alloc: Global, directory: u64) -> Result<Name, Memory>
    ensures { IfOk result (λ n. n ≡ directory_name directory) }
{
    let bytes = [
        b'd',
        digit(directory, 100),
        digit(directory, 10),
        digit(directory, 1),
    ];
    let bytes = Vec::from_slice(alloc, &bytes)?;
    Name::from_vec(alloc, bytes)
}

// The name of the file in its directory.
fn name_of_file(alloc: Global, file: u64) -> Result<Name, Memory>
    ensures { IfOk result (λ n. n ≡ file_name file) }
{
    let bytes = [
        b'f',
        digit(file, 10000),
        digit(file, 1000),
        digit(file, 100),
        digit(file, 10),
        digit(file, 1),
    ];
    let bytes = Vec::from_slice(alloc, &bytes)?;
    Name::from_vec(alloc, bytes)
}

// The decimal digit of a number at a unit.
fn digit(number: u64, unit: u64) -> u8
    requires { 0 < unit }
    ensures { result ≡ 48 + number / unit % 10 }
{
    b'0' + (number / unit % 10) as u8
}
