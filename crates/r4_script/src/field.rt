//! The fields of a line.

ghost use Rattle.std.specs.Prelude.{◌≡◌, ℕ, ◌+◌, ◌-◌, ◌^◌, ◌≤◌, ◌<◌, length, IfOk};
ghost use Rattle.r4_script.specs.Field.{Gives, field_at, ends_at, text_at};

use crate::fault::{Spot, Stop, What};
use crate::split::until;
use r4_content::Bytes;
use std::alloc::Global;

/// The longest text of one `write`, in bytes.
const TEXT: usize = 4096;

/// A fault at a place, counted from 0.
pub fn fault_at(place: usize, what: What) -> Stop
    requires { place < 2 ^ 32 - 1 }
    ensures { result ≡ Stop.Spot (record { column = place + 1; what = what }) }
{
    Stop::Spot(Spot {
        column: place as u32 + 1,
        what,
    })
}

/// The field that begins at `place`, and where the next one begins.
#[tactic(auto, using(crate::proofs::Splits::until_short), unfolding(crate::specs::Field::field_at))]
pub fn field(line: &[u8], place: usize) -> Result<(&[u8], usize), Stop>
    requires { length line.now ≤ 16777216 }
    ensures read { Gives (λ f. (f.0.now, f.1)) result (field_at line.now place) }
    ensures next { IfOk result (λ f. f.1 ≤ 16777217) }
    ensures here { IfOk result (λ f. place ≤ 16777216) }
{
    if place > line.len() {
        return Err(fault_at(line.len(), What::Field));
    }
    let field = until(&line[place..], b' ');
    Ok((field, place + field.len() + 1))
}

/// No field begins at `place`.
#[tactic(auto, unfolding(crate::specs::Field::ends_at))]
pub fn ends(line: &[u8], place: usize) -> Result<(), Stop>
    requires { length line.now ≤ 16777216 }
    ensures { Gives (λ _. tt) result (ends_at line.now place) }
{
    if place > line.len() {
        return Ok(());
    }
    Err(fault_at(place, What::Field))
}

/// The rest of the line from `place` on.
#[tactic(auto, unfolding(crate::specs::Field::text_at))]
pub fn text(alloc: Global, line: &[u8], place: usize) -> Result<Bytes, Stop>
    requires { length line.now ≤ 16777216 }
    ensures { Gives (λ t. t) result (text_at line.now place) }
{
    if place > line.len() {
        return Err(fault_at(line.len(), What::Field));
    }
    let rest = &line[place..];
    if rest.len() > TEXT {
        return Err(fault_at(place + TEXT, What::Text));
    }
    let rest = Vec::from_slice(alloc, rest)?;
    Ok(Bytes::from_vec(alloc, rest)?)
}
