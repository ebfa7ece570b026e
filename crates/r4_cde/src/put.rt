//! Entries that are written (docs/layout.md, "Items").

ghost use Rattle.std.specs.Prelude.{◌≡◌, ◌+◌, ◌*◌, ◌^◌, ◌<◌, ◌≤◌, ◌++◌, ◌∷◌, [], ℕ, List, length, IfSome, All};
ghost use Rattle.std.specs.Option.{option_copied};
ghost use Rattle.r4_base.specs.Bytes.{fields_bytes, overwrite};
ghost use Rattle.r4_base.specs.Dir.{entry_header, entry_key_at, entry_offset, target_of};
ghost use Rattle.r4_cde.specs.Edits.{given_body, given_room, header_fields, target_fields};

use crate::fields::{TARGET, header_of};
use r4_base::{Key, Target, put_bytes, put16, put64};

/// How many bytes an entry's body has, for a long name or none.
pub(crate) fn room_of(long: Option<&[u8]>) -> usize
    requires { given_room (option_copied long) ≤ 4096 }
    ensures room { result ≡ given_room (option_copied long.entry) }
    ensures bytes { IfSome (option_copied long.entry) (λ s. All (λ c. c < 256) s) }
{
    match long {
        Some(name) => TARGET + length_with_zero(name),
        None => TARGET,
    }
}

/// How many bytes a long name and the zero behind it have.
fn length_with_zero(name: &[u8]) -> usize
    requires { length name.now ≤ 4096 }
    ensures room { result ≡ length name.now + 1 }
    ensures bytes { All (λ c. c < 256) name.now }
{
    name.len() + 1
}

/// Writes the header of entry `i`.
pub(crate) fn put_header(body: &mut [u8], i: u16, key: &Key, offset: u16)
    requires { entry_header (i + 1) ≤ length body.old }
    ensures bytes { body.new ≡ overwrite (entry_header i) (fields_bytes (header_fields key.now offset)) body.old }
    ensures key { entry_key_at key.now body.new i ≡ key.now }
    ensures offset { entry_offset body.new i ≡ offset }
{
    let at = header_of(i);
    put64(body, at, key.el[1]);
    put64(body, at + 8, key.el[2]);
    put64(body, at + 16, key.el[3]);
    put16(body, at + 24, offset);
}

/// Writes the body of an entry: its target, and a long name with a zero behind it.
pub(crate) fn put_body(body: &mut [u8], at: usize, target: &Target, long: Option<&[u8]>)
    requires { at + given_room (option_copied long) ≤ length body.old }
    ensures bytes { body.new ≡ overwrite at (given_body target.now (option_copied long.entry)) body.old }
    ensures target { target_of (given_body target.now (option_copied long.entry)) ≡ target.now }
{
    put_target(body, at, target);
    if let Some(name) = long {
        put_name(body, at + TARGET, name);
    }
}

/// Writes a target.
fn put_target(body: &mut [u8], at: usize, target: &Target)
    requires { at + 24 ≤ length body.old }
    ensures bytes { body.new ≡ overwrite at (fields_bytes (target_fields target.now)) body.old }
    ensures target { (rest : List ℕ) → target_of (fields_bytes (target_fields target.now) ++ rest) ≡ target.now }
{
    put64(body, at, target.locality);
    put64(body, at + 8, target.ordering);
    put64(body, at + 16, target.oid.0);
}

/// Writes a long name and a zero behind it.
fn put_name(body: &mut [u8], at: usize, name: &[u8])
    requires { at + length name.now + 1 ≤ length body.old }
    ensures { body.new ≡ overwrite at (name.now ++ 0 ∷ []) body.old }
{
    put_bytes(body, at, name);
    body[at + name.len()] = 0;
}
