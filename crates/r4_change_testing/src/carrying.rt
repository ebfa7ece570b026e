//! A command, from what it reaches up to the volume that it leaves.

ghost use Rattle.r4_content.specs.Fields.{HasBytePaths};

use crate::building::built;
use crate::listings::{differences, listing};
use crate::placing::put_in_place;
use crate::replies::words;
use crate::volumes::Volume;
use r4_build::Built;
use r4_content::Command;
use std::alloc::{AllocError, Global};
use std::test::Fail;

/// What became of a command: its reply, how many cells go and come, and how many objects, as in
/// `ok, 1 old, 2 new, 1 born`, where what there is none of is left out; and the lines of the
/// listing that go, behind a `-`, and that come, behind a `+`.
#[derive(Drop)]
pub struct Done {
    pub told: String,
    pub lines: Vec<String>,
}

/// Makes the change of a command in a volume.
///
/// # Errors
/// Where there is no memory, nothing is built of the command, or the volume is not listed before
/// or after.
pub fn carry_out(alloc: Global, volume: &mut Volume, command: Command) -> Result<Done, Fail>
    requires { HasBytePaths command }
{
    let before = listing(alloc, volume)?;
    let told = change(alloc, volume, command)?;
    let lines = lines_since(alloc, volume, before.as_slice())?;
    Ok(Done { told, lines })
}

/// Makes the change of a command in a volume, and tells the reply, and how many cells and objects
/// go and come. Nothing is listed.
///
/// # Errors
/// Where there is no memory, or nothing is built of the command.
pub fn change(alloc: Global, volume: &mut Volume, command: Command) -> Result<String, Fail>
    requires { HasBytePaths command }
{
    let root = volume.root;
    let made = built(alloc, &mut volume.dev, root, command)?;
    place_and_tell(alloc, volume, &made)
}

// Puts what was built in place, and tells the reply.
fn place_and_tell(alloc: Global, volume: &mut Volume, made: &Built) -> Result<String, Fail> {
    put_in_place(alloc, volume, made.change())?;
    Ok(told(alloc, made)?)
}

// What differs in the listing from these lines.
fn lines_since(alloc: Global, volume: &mut Volume, before: &[String]) -> Result<Vec<String>, Fail> {
    let after = listing(alloc, volume)?;
    Ok(differences(alloc, before, after.as_slice())?)
}

// The reply, and how many cells and objects go and come.
fn told(alloc: Global, built: &Built) -> Result<String, AllocError> {
    let mut told = words(alloc, built.reply())?;
    let (change, objects) = (built.change(), built.objects());
    put_count(alloc, &mut told, change.old.as_slice().len() as u64, "old")?;
    put_count(alloc, &mut told, change.new.as_slice().len() as u64, "new")?;
    put_count(alloc, &mut told, objects.born, "born")?;
    put_count(alloc, &mut told, objects.gone, "gone")?;
    if let Some(root) = change.root {
        let height = root.height;
        told.push_str(format!(in alloc; ", height {height}")?.as_str())?;
    }
    Ok(told)
}

// Adds how many there are, if there are some.
fn put_count(alloc: Global, told: &mut String, count: u64, of: &str) -> Result<(), AllocError> {
    if count == 0 {
        return Ok(());
    }
    told.push_str(format!(in alloc; ", {count} {of}")?.as_str())
}
