//! Stat data (docs/layout.md, "Items").

ghost use Rattle.std.specs.Prelude.{◌≡◌, ℕ, length, IfOk, IsTrue, Ok};
ghost use Rattle.r4_base.specs.Bytes.{FieldsFit, put_all};
ghost use Rattle.r4_base.specs.Stat.{attr_of, kind_is_good, stat_body, stat_fields, stat_of};

use r4_base::{Attr, StatFault, get16, get32, get64, put16, put32, put64};

/// The mask: which fields follow it.
const MASK: u16 = 3;

/// How many bytes stat data have.
const LENGTH: usize = 44;

/// The upper four bits of a directory's mode.
const DIRECTORY: u16 = 0o04;

/// The upper four bits of a file's mode.
const FILE: u16 = 0o10;

/// The attributes that a body says. The faults are looked for in this order: `Mask`, where the body has fewer than two
/// bytes or its mask is not 3; `Length`, where it has not 44 bytes; `Kind`, where the upper four bits of the mode are
/// neither a directory's nor a file's. The other fields may be any numbers (docs/layout.md, "Items").
#[tactic(auto, unfolding(r4_base::specs::Stat::stat_of))]
pub fn read_stat(body: &[u8]) -> Result<Attr, StatFault>
    ensures value { result ≡ stat_of body.now }
    ensures long { IfOk result (λ a. length body.now ≡ 44) }
    ensures kind { IfOk result (λ a. IsTrue (kind_is_good a.mode)) }
{
    if body.len() < 2 || get16(body, 0) != MASK {
        return Err(StatFault::Mask);
    }
    if body.len() != LENGTH {
        return Err(StatFault::Length);
    }
    let a = attributes(body);
    let kind = a.mode >> 12;
    if kind != DIRECTORY && kind != FILE {
        return Err(StatFault::Kind);
    }
    Ok(a)
}

/// The fields of a body, whatever they are.
#[tactic(auto, unfolding(r4_base::specs::Stat::attr_of))]
fn attributes(body: &[u8]) -> Attr
    requires { length body.now ≡ 44 }
    ensures { result ≡ attr_of body.now }
{
    Attr {
        mode: get16(body, 2),
        nlink: get32(body, 4),
        size: get64(body, 8),
        uid: get32(body, 16),
        gid: get32(body, 20),
        atime: get32(body, 24),
        mtime: get32(body, 28),
        ctime: get32(body, 32),
        bytes: get64(body, 36),
    }
}

/// Makes a body of 44 bytes the spelling of attributes. What is read again is what was written; it is refused unless the
/// mode is a directory's or a file's (docs/layout.md, "Items").
pub fn write_stat(body: &mut [u8], a: &Attr)
    requires { length body.old ≡ 44 }
    ensures spelled { body.new ≡ stat_body a.now }
    ensures again { IsTrue (kind_is_good a.now.mode) → stat_of body.new ≡ Ok a.now }
    ensures fields { attr_of body.new ≡ a.now }
{
    put16(body, 0, MASK);
    put_attributes(body, *a);
}

/// Writes the fields behind the mask.
fn put_attributes(body: &mut [u8], a: Attr)
    requires { length body.old ≡ 44 }
    ensures fit { FieldsFit (stat_fields a) }
    ensures spelled { body.new ≡ put_all (stat_fields a) 2 body.old }
{
    put16(body, 2, a.mode);
    put32(body, 4, a.nlink);
    put64(body, 8, a.size);
    put32(body, 16, a.uid);
    put32(body, 20, a.gid);
    put32(body, 24, a.atime);
    put32(body, 28, a.mtime);
    put32(body, 32, a.ctime);
    put64(body, 36, a.bytes);
}
