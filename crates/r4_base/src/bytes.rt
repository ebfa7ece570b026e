//! Numbers in bytes, the lowest byte first (docs/layout.md, "Numbers").

ghost use Rattle.std.specs.Prelude.{◌≡◌, ◌≤◌, ◌+◌, ◌-◌, length, replicate, slice_range};
ghost use Rattle.r4_base.specs.Bytes.{number_at, number_bytes, overwrite};

use byteorder::{ByteOrder, LittleEndian};

/// The number in the two bytes from `at` on.
pub fn get16(b: &[u8], at: usize) -> u16
    requires { at + 2 ≤ length b.now }
    ensures { result ≡ number_at 2 at b.now }
{
    LittleEndian::read_u16(&b[at..])
}

/// The number in the four bytes from `at` on.
pub fn get32(b: &[u8], at: usize) -> u32
    requires { at + 4 ≤ length b.now }
    ensures { result ≡ number_at 4 at b.now }
{
    LittleEndian::read_u32(&b[at..])
}

/// The number in the eight bytes from `at` on.
pub fn get64(b: &[u8], at: usize) -> u64
    requires { at + 8 ≤ length b.now }
    ensures { result ≡ number_at 8 at b.now }
{
    LittleEndian::read_u64(&b[at..])
}

/// Writes a number into the two bytes from `at` on.
pub fn put16(b: &mut [u8], at: usize, v: u16)
    requires { at + 2 ≤ length b.old }
    ensures { b.new ≡ overwrite at (number_bytes 2 v) b.old }
{
    LittleEndian::write_u16(&mut b[at..], v);
}

/// Writes a number into the four bytes from `at` on.
pub fn put32(b: &mut [u8], at: usize, v: u32)
    requires { at + 4 ≤ length b.old }
    ensures { b.new ≡ overwrite at (number_bytes 4 v) b.old }
{
    LittleEndian::write_u32(&mut b[at..], v);
}

/// Writes a number into the eight bytes from `at` on.
pub fn put64(b: &mut [u8], at: usize, v: u64)
    requires { at + 8 ≤ length b.old }
    ensures { b.new ≡ overwrite at (number_bytes 8 v) b.old }
{
    LittleEndian::write_u64(&mut b[at..], v);
}

/// Writes bytes over a part of `b`.
pub fn put_bytes(b: &mut [u8], at: usize, from: &[u8])
    requires { at + length from.now ≤ length b.old }
    ensures { b.new ≡ overwrite at from.now b.old }
{
    b[at..at + from.len()].copy_from_slice(from);
}

/// Makes each byte zero.
pub fn blank(b: &mut [u8])
    ensures { b.new ≡ replicate (length b.old) 0 }
{
    b.fill(0);
}

/// Copies the bytes from `from` up to `to` to the place `at`.
pub fn move_bytes(b: &mut [u8], from: usize, to: usize, at: usize)
    requires order { from ≤ to }
    requires within { to ≤ length b.old }
    requires room { at + (to - from) ≤ length b.old }
    ensures { b.new ≡ overwrite at (slice_range b.old from to) b.old }
{
    b.copy_within(from..to, at);
}
