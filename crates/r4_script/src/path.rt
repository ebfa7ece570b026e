//! Fields that are paths.

ghost use Rattle.std.specs.Prelude.{◌≡◌, ℕ, ◌+◌, ◌≤◌, ◌<◌, ◌++◌, length, drop, option_map, IfOk};
ghost use Rattle.std.specs.List.{list_all};
ghost use Rattle.r4_script.specs.Split.{split};
ghost use Rattle.r4_script.specs.Field.{Gives, components, is_path_byte, behind_root, path_of, path_at};

use crate::fault::{Stop, What};
use crate::field::{fault_at, field};
use crate::split::until;
use r4_base::Memory;
use r4_content::{Name, Path};
use std::alloc::Global;

/// A field that is a path, and where the next one begins.
#[tactic(auto, unfolding(crate::specs::Field::path_at, crate::specs::Field::path_of))]
pub fn path(alloc: Global, line: &[u8], place: usize) -> Result<(Path, usize), Stop>
    requires { length line.now ≤ 16777216 }
    ensures { Gives (λ p. p) result (path_at line.now place) }
{
    let (bytes, next) = field(line, place)?;
    match rooted(bytes) {
        Some(rest) => Ok((Path::from_vec(names(alloc, rest)?), next)),
        None => Err(fault_at(place, What::Path)),
    }
}

// What stands behind the slash with which a path begins; none where the bytes are no path.
fn rooted(bytes: &[u8]) -> Option<&[u8]>
    ensures { option_map (λ rest. rest.now) result ≡ behind_root bytes.now }
{
    match bytes {
        [b'/', rest @ ..] if are_visible(rest) => Some(rest),
        _ => None,
    }
}

// May all the bytes stand in a path?
fn are_visible(bytes: &[u8]) -> bool
    ensures { result ≡ list_all is_path_byte bytes.now }
{
    bytes.iter().all(|b| is_visible(*b))
}

// May the byte stand in a path?
fn is_visible(byte: u8) -> bool
    ensures { result ≡ is_path_byte byte }
{
    byte > b' ' && byte != 127
}

// The names between the slashes.
fn names(alloc: Global, bytes: &[u8]) -> Result<Vec<Name>, Memory>
    ensures { IfOk result (λ v. v.items ≡ components bytes.now) }
{
    let mut names = Vec::new(alloc);
    if bytes.is_empty() {
        return Ok(names);
    }
    let mut place = 0;
    while place <= bytes.len() {
        let part = until(&bytes[place..], b'/');
        names.push(name(alloc, part)?)?;
        place += part.len() + 1;
    }
    Ok(names)
}

// The name of these bytes.
fn name(alloc: Global, bytes: &[u8]) -> Result<Name, Memory>
    ensures { IfOk result (λ n. n ≡ bytes.now) }
{
    let bytes = Vec::from_slice(alloc, bytes)?;
    Name::from_vec(alloc, bytes)
}
