//! Names and directory items, over tables of names.

ghost use Rattle.std.specs.Prelude.{◌≡◌, ◌+◌, ◌≤◌, length};

use crate::same::{same, same_in};
use r4_base::{Key, NameFault, Oid, Target, put_bytes, put16, put64};
use r4_cde::{DirView, cut, entry_key, insert, name_of_key, r5, split};
use std::process::Abort;
use std::test::Fail;

// The directory that the names stand in.
const DIR: Oid = Oid(42);

// What an entry names.
const OBJECT: Target = Target {
    locality: 41,
    ordering: 7,
    oid: Oid(65_536),
};

// The first seven bytes of a long name, and the eight behind them.
const FIRST: u64 = 0x61_6263_6465_6667;

const SECOND: u64 = 0x6869_6a6b_6c6d_6e6f;

// The bytes of a name.
type Name = &'static [u8];

// A name, and the ordering, object id and offset of its key.
static KEYS: [(Name, [u64; 3]); 4] = [
    (
        b"abcdefghijklmnopqrstuvw",
        [FIRST, SECOND, 0x7071_7273_7475_7677],
    ),
    (
        b"abcdefghijklmnopqrstuvwx",
        [FIRST + (1 << 56), SECOND, 4_670_292_671_517],
    ),
    (b"a", [0x61 << 48, 0, 0]),
    (b"...", [0x2e2e_2e << 32, 0, 0]),
];

// Looks at the key of a name, and at the name of the key: there is one but for a name of 24 bytes.
fn look_at_key<X: Abort>(rt: &X, name: &[u8], wanted: &Key, row: usize) -> Result<(), Fail> {
    let Ok(key) = entry_key(DIR, name) else {
        return Err(Fail::from("a name is refused"));
    };
    same_in(rt, &key, wanted, row);
    match name_of_key(&key) {
        Some(short) => same_in(rt, &short.as_bytes(), &name, row),
        None => same_in(rt, &name.len(), &24, row),
    }
    Ok(())
}

#[test]
fn names_have_keys(rt: HostRuntime) -> Result<(), Fail> {
    for (row, &(name, [ordering, id, offset])) in KEYS.iter().enumerate() {
        let wanted = Key {
            el: [672, ordering, id, offset],
        };
        look_at_key(&rt, name, &wanted, row)?;
    }
    Ok(())
}

// Bytes that are no name, and their fault.
static NO_NAMES: [(Name, NameFault); 5] = [
    (b"", NameFault::Empty),
    (b".", NameFault::Dot),
    (b"..", NameFault::Dot),
    (b"a/b", NameFault::Byte(1)),
    (b"ab\0", NameFault::Byte(2)),
];

#[test]
fn bytes_that_are_no_names(rt: HostRuntime) -> Result<(), Fail> {
    for (row, &(name, fault)) in NO_NAMES.iter().enumerate() {
        same_in(&rt, &entry_key(DIR, name).err(), &Some(fault), row);
    }
    Ok(())
}

#[test]
fn a_name_has_at_most_255_bytes(rt: HostRuntime) -> Result<(), Fail> {
    let long = [b'n'; 256];
    let fault = entry_key(DIR, &long).err();
    same(&rt, &fault, &Some(NameFault::Long(256)), "256 bytes");
    let is_key = entry_key(DIR, &long[..255]).is_ok();
    same(&rt, &is_key, &true, "255 bytes");
    Ok(())
}

#[test]
fn two_names_have_one_hash(rt: HostRuntime) -> Result<(), Fail> {
    let one = entry_key(DIR, b"aaaaaaaaaaaaaaaxxxxxxxca");
    let two = entry_key(DIR, b"aaaaaaaaaaaaaaaxxxxxxxbl");
    same(&rt, &one, &two, "keys");
    same(&rt, &one.is_ok(), &true, "key");
    same(&rt, &r5(b"xxxxxxxca"), &r5(b"xxxxxxxbl"), "hashes");
    same(&rt, &r5(b""), &0, "hash of no byte");
    same(&rt, &r5(b"a"), &17_138, "hash of a byte");
    Ok(())
}

// Writes an entry's header.
fn put_header(body: &mut [u8], at: usize, key: &Key, offset: u16)
    requires { at + 26 ≤ length body.old }
{
    put64(body, at, key.el[1]);
    put64(body, at + 8, key.el[2]);
    put64(body, at + 16, key.el[3]);
    put16(body, at + 24, offset);
}

// Writes a body with an entry "a" and one of another name; so many bytes are used, where it is one of at most 24 bytes.
fn spelled(body: &mut [u8], other: &[u8]) -> Option<usize>
    requires { length body.old ≡ 127 }
{
    let one = entry_key(DIR, b"a").ok()?;
    let two = entry_key(DIR, other).ok()?;
    put16(body, 0, 2);
    put_header(body, 2, &one, 54);
    put_header(body, 28, &two, 78);
    if other.len() < 24 {
        return Some(102);
    }
    if other.len() > 24 {
        return None;
    }
    put_bytes(body, 102, other);
    Some(127)
}

// Looks at a body of an entry "a" and one of another name: it is refused without its last byte; both entries are found,
// and none of a name between the two.
fn look_at_two<X: Abort>(
    rt: &X,
    body: &[u8],
    other: &[u8],
    between: &[u8],
    row: usize,
) -> Result<(), Fail> {
    let (Ok(item), Ok(last), Ok(none)) = (
        entry_key(DIR, b"a"),
        entry_key(DIR, other),
        entry_key(DIR, between),
    ) else {
        return Err(Fail::from("a name is refused"));
    };
    let Some((_, shorter)) = body.split_last() else {
        return Err(Fail::from("there is no body"));
    };
    same_in(rt, &DirView::read(&item, shorter).is_err(), &true, row);
    let Ok(view) = DirView::read(&item, body) else {
        return Err(Fail::from("the body is refused"));
    };
    same_in(rt, &view.len(), &2, row);
    same_in(rt, &view.find(&item), &Some(0), row);
    same_in(rt, &view.find(&none), &None, row);
    same_in(rt, &view.find(&last), &Some(1), row);
    Ok(())
}

// The other name, how many bytes the body then has, and a name between the two.
static PAIRS: [(Name, usize, Name); 2] = [
    (b"b", 102, b"aa"),
    (b"bcdefghijklmnopqrstuvwxy", 127, b"b"),
];

#[test]
fn entries_are_found(rt: HostRuntime) -> Result<(), Fail> {
    for (row, &(other, long, between)) in PAIRS.iter().enumerate() {
        let mut body = [0u8; 127];
        let used = spelled(&mut body, other);
        same_in(&rt, &used, &Some(long), row);
        let Some(laid) = body.get(..long) else {
            return Err(Fail::from("the body has at most 127 bytes"));
        };
        look_at_two(&rt, laid, other, between, row)?;
    }
    Ok(())
}

// Parts the entries of a body behind the first, where it has two.
fn parted(item: &Key, body: &[u8], left: &mut [u8], right: &mut [u8]) -> Option<(usize, usize)>
    requires short { length body.now ≤ 4096 }
    requires left_room { length body.now ≤ length left.old }
    requires right_room { length body.now ≤ length right.old }
{
    let Ok(view) = DirView::read(item, body) else {
        return None;
    };
    if view.len() < 2 {
        return None;
    }
    Some(split(body, 1, left, right))
}

// Takes the first entry of a body away, where it has two.
fn without_first(item: &Key, body: &mut [u8]) -> Option<usize>
    requires { length body.old ≤ 4096 }
{
    let Ok(view) = DirView::read(item, body) else {
        return None;
    };
    if view.len() < 2 {
        return None;
    }
    let used = body.len();
    Some(cut(body, used, 0, 1))
}

// Whether two bodies have the same first bytes.
fn begin_alike(left: &[u8], right: &[u8], used: usize) -> bool {
    if left.len() < used || right.len() < used {
        return false;
    }
    left[..used].iter().zip(&right[..used]).all(|(x, y)| x == y)
}

#[test]
fn entries_are_parted(rt: HostRuntime) -> Result<(), Fail> {
    let mut body = [0u8; 127];
    let used = spelled(&mut body, b"bcdefghijklmnopqrstuvwxy");
    same(&rt, &used, &Some(127), "bytes used");
    let Ok(item) = entry_key(DIR, b"a") else {
        return Err(Fail::from("a name is refused"));
    };
    let mut left = [0u8; 127];
    let mut right = [0u8; 127];
    let parts = parted(&item, &body, &mut left, &mut right);
    same(&rt, &parts, &Some((52, 77)), "parts");
    let rest = without_first(&item, &mut body);
    same(&rt, &rest, &Some(77), "rest");
    same(&rt, &begin_alike(&body, &right, 77), &true, "same bytes");
    Ok(())
}

// Puts the one entry of a short name into a body.
fn put_alone(body: &mut [u8], name: &[u8]) -> Option<usize>
    requires room { 52 ≤ length body.old }
    requires short { length body.old ≤ 4096 }
{
    if name.len() > 23 {
        return None;
    }
    let Ok(key) = entry_key(DIR, name) else {
        return None;
    };
    Some(insert(body, 0, 0, &key, &OBJECT, None))
}

// Whether the first bytes of a body are accepted.
fn is_read(item: &Key, body: &[u8], used: usize) -> bool {
    if body.len() < used {
        return false;
    }
    DirView::read(item, &body[..used]).is_ok()
}

#[test]
fn an_entry_is_put_alone(rt: HostRuntime) -> Result<(), Fail> {
    let mut body = [0u8; 60];
    let used = put_alone(&mut body, b"a");
    same(&rt, &used, &Some(52), "bytes used");
    same(&rt, &&body[..4], &[1, 0, 0, 0].as_slice(), "first bytes");
    same(&rt, &body[8], &0x61, "byte of the name");
    let Ok(item) = entry_key(DIR, b"a") else {
        return Err(Fail::from("a name is refused"));
    };
    same(&rt, &is_read(&item, &body, 52), &true, "is read");
    Ok(())
}
