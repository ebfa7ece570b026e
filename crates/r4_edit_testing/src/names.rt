//! Items of entries for tests.

use r4_base::{Key, Oid};
use r4_cde::entry_key;
use std::alloc::Global;
use std::test::Fail;

/// The plugin of entries.
pub const ENTRIES: u16 = 2;

/// Letters whose names rise.
pub static LETTERS: [u8; 40] = *b"0123456789ABCDEFGHIJKLMNOPQRSTUVWXYZabcd";

/// The key of a name in a directory: a letter, so many times.
///
/// # Errors
/// Where no directory has this number, or the name is none.
pub fn name_key(dir: Oid, letter: u8, times: u8) -> Result<Key, Fail> {
    if dir.0 >= 1 << 60 {
        return Err(Fail::from("no directory has this number"));
    }
    let name = [letter; 255];
    match entry_key(dir, &name[..usize::from(times)]) {
        Ok(key) => Ok(key),
        Err(_) => Err(Fail::from("this is no name")),
    }
}

// Puts the body of an entry behind others: what it names, and its name, where that is a long one.
fn add_entry(bodies: &mut Vec<u8>, letter: u8, times: u8) -> Result<(), Fail> {
    bodies.extend_from_slice(&[0; 24])?;
    if times > 23 {
        let name = [letter; 255];
        bodies.extend_from_slice(&name[..usize::from(times)])?;
        bodies.push(0)?;
    }
    Ok(())
}

/// The body of an item of entries, whose names are these letters, each so many times (docs/layout.md, "Items").
///
/// # Errors
/// Where there are too many letters, or there is no memory.
pub fn entries(alloc: Global, dir: Oid, letters: &[u8], times: u8) -> Result<Vec<u8>, Fail> {
    let Ok(count) = u8::try_from(letters.len()) else {
        return Err(Fail::from("these are too many entries"));
    };
    let room = if times > 23 {
        25 + u16::from(times)
    } else {
        24
    };
    let mut at = 2 + 26 * u16::from(count);
    let mut body = Vec::new(alloc);
    let mut bodies = Vec::new(alloc);
    body.extend_from_slice(&u16::from(count).to_le_bytes())?;
    for letter in letters {
        let key = name_key(dir, *letter, times)?;
        body.extend_from_slice(&key.el[1].to_le_bytes())?;
        body.extend_from_slice(&key.el[2].to_le_bytes())?;
        body.extend_from_slice(&key.el[3].to_le_bytes())?;
        body.extend_from_slice(&at.to_le_bytes())?;
        add_entry(&mut bodies, *letter, times)?;
        at = at.wrapping_add(room);
    }
    body.extend_from_slice(bodies.as_slice())?;
    Ok(body)
}
