//! The line of an object (docs/program.md, "Listing").

ghost use Rattle.std.specs.Prelude.{◌≡◌, ◌++◌, ◌%◌, ◌/◌, ◌∷◌, [], codes, decimal, OnOk};
ghost use Rattle.r4_list.specs.Listing.{digit, kind_text, line_of, path_text};

use itoa::Buffer;
use r4_base::{Attr, Memory};

/// Puts the line of an object behind a text.
pub fn push_line(line: &mut Vec<u8>, attr: &Attr, path: &[u8]) -> Result<(), Memory>
    ensures { OnOk result (line.new.items ≡ line.old.items ++ line_of attr.now path.now) }
{
    line.extend_from_slice(kind(attr))?;
    push_mode(line, attr.mode)?;
    push_number(line, u64::from(attr.nlink))?;
    push_number(line, u64::from(attr.uid))?;
    push_number(line, u64::from(attr.gid))?;
    push_number(line, attr.size)?;
    line.extend_from_slice(b" ")?;
    line.extend_from_slice(shown(path))?;
    line.extend_from_slice(b"\n")
}

// The letter of an object's kind, and a blank.
fn kind(attr: &Attr) -> &'static [u8]
    ensures { result.now ≡ kind_text attr.now ++ codes " " }
{
    if attr.is_directory() { b"d " } else { b"f " }
}

// The path that a line shows: a slash for none.
fn shown(path: &[u8]) -> &[u8]
    ensures { result.now ≡ path_text path.now }
{
    if path.is_empty() { b"/" } else { path }
}

// Puts the low twelve bits of a mode behind a text, as four octal digits.
fn push_mode(line: &mut Vec<u8>, mode: u16) -> Result<(), Memory>
    ensures { OnOk result (line.new.items ≡ line.old.items ++ (digit (mode / 512 % 8) ∷ digit (mode / 64 % 8) ∷ digit (mode / 8 % 8) ∷ digit (mode % 8) ∷ [])) }
{
    line.extend_from_slice(&[
        octal(mode >> 9),
        octal(mode >> 6),
        octal(mode >> 3),
        octal(mode),
    ])
}

// The lowest octal digit of a number.
fn octal(number: u16) -> u8
    ensures { result ≡ digit (number % 8) }
{
    b'0' + (number % 8) as u8
}

// Puts a number behind a text, and a blank before it.
fn push_number(line: &mut Vec<u8>, number: u64) -> Result<(), Memory>
    ensures { OnOk result (line.new.items ≡ line.old.items ++ (codes " " ++ decimal number)) }
{
    let mut digits = Buffer::new();
    line.extend_from_slice(b" ")?;
    line.extend_from_slice(digits.format(number).as_bytes())
}
