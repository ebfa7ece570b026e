//! The walk along a path (docs/volume.md, "Paths").

ghost use Rattle.std.specs.Prelude.{◌≡◌, ◌∷◌, ◌+◌, ℕ, ◌≤◌, ◌<◌, length, drop, slice_range, IfOk, IfSome, None};
ghost use Rattle.std.specs.List.{list_all};
ghost use Rattle.std.specs.Option.{is_none};
ghost use Rattle.r4_base.specs.Image.{Image};
ghost use Rattle.r4_base.specs.Name.{name_fault};
ghost use Rattle.r4_base.specs.Value.{Content};
ghost use Rattle.r4_base.specs.Volume.{HasContent, is_directory};
ghost use Rattle.r4_content.specs.Walk.{names_in, pieces_of, walk};
ghost use Rattle.r4_search.specs.Path.{root_name};
ghost use Rattle.r4_search.specs.Pool.{IsKnown};
ghost use Rattle.r4_list.specs.Over.{FindsOver, IsOver};
ghost use Rattle.r4_list.specs.OverWalks.{EndsLookedUp, IsLookedUp, IsStep, pieces_from, walked_of};
ghost use Rattle.r4_list.specs.Printing.{Fetched};

use crate::lookup::{attr_of, target_of};
use r4_base::{Attr, Oid, ROOT_OBJECT, Target};
use r4_cde::entry_key;
use r4_cell::Root;
use r4_search::{FetchFault, Pool};
use std::alloc::Global;

/// Where a walk ends: at an object, or why at none: a part of the path is no name, a step begins at no directory, or a
/// name has no entry.
#[derive(Clone, Copy, Debug)]
pub enum Walked {
    At { object: Target, attr: Attr },
    NoName,
    NoDirectory,
    NoEntry,
}

/// Where a path leads that begins with a slash, which is not looked at: over the tree of a content where that says, and no
/// block is refused (docs/volume.md, "Paths").
pub fn walk<P: Pool>(
    alloc: Global,
    pool: &mut P,
    root: &Root,
    path: &[u8],
) -> Result<Walked, FetchFault>
    requires path { 1 ≤ length path.now }
    requires some { 1 ≤ root.now.height }
    requires known { IsKnown (P.state pool.old) (root_name root.now) }
    requires root { (P.state pool.old).root ≡ root_name root.now }
    ensures fetched { Fetched root.now (P.state pool.old) result (P.state pool.new) (P.device pool.old) (P.device pool.new) }
    ensures over { (n : ℕ) (image : Image) (m : Content) (c : HasContent n image m) → IsOver c root.now (P.state pool.old)
        → FindsOver c root.now result (P.state pool.new) (λ w. walked_of w ≡ walk m (names_in path.now)) }
    ensures reached { IfOk result EndsLookedUp }
{
    if !has_names(path) {
        return Ok(Walked::NoName);
    }
    let mut object = ROOT_OBJECT;
    let Some(mut attr) = attr_of(alloc, pool, root, &object)? else {
        return Ok(Walked::NoDirectory);
    };
    let mut from = 1;
    while from < path.len() {
        if !attr.is_directory() {
            return Ok(Walked::NoDirectory);
        }
        let end = piece_end(path, from);
        let Some(next) = step(alloc, pool, root, object.oid, &path[from..end])? else {
            return Ok(Walked::NoEntry);
        };
        object = next.object;
        attr = next.attr;
        from = end + 1;
    }
    Ok(Walked::At { object, attr })
}

/// An object with its attributes.
#[derive(Clone, Copy, Debug)]
struct Object {
    object: Target,
    attr: Attr,
}

// The object of a name in a directory.
fn step<P: Pool>(
    alloc: Global,
    pool: &mut P,
    root: &Root,
    dir: Oid,
    name: &[u8],
) -> Result<Option<Object>, FetchFault>
    requires some { 1 ≤ root.now.height }
    requires known { IsKnown (P.state pool.old) (root_name root.now) }
    requires root { (P.state pool.old).root ≡ root_name root.now }
    ensures fetched { Fetched root.now (P.state pool.old) result (P.state pool.new) (P.device pool.old) (P.device pool.new) }
    ensures over { (n : ℕ) (image : Image) (m : Content) (c : HasContent n image m) → name_fault name.now ≡ None → IsOver c root.now (P.state pool.old)
        → FindsOver c root.now result (P.state pool.new) (IsStep m dir.0 name.now) }
    ensures reached { IfOk result (λ r. IfSome r (λ o. IsLookedUp o.object)) }
{
    let Some(object) = target_of(alloc, pool, root, dir, name)? else {
        return Ok(None);
    };
    let Some(attr) = attr_of(alloc, pool, root, &object)? else {
        return Ok(None);
    };
    Ok(Some(Object { object, attr }))
}

// Whether each part of a path is a name.
fn has_names(path: &[u8]) -> bool
    requires { 1 ≤ length path.now }
    ensures { result ≡ list_all (λ n. is_none (name_fault n)) (names_in path.now) }
{
    if path.len() == 1 {
        return true;
    }
    let mut from = 1;
    while from <= path.len() {
        let end = piece_end(path, from);
        if !is_name(&path[from..end]) {
            return false;
        }
        from = end + 1;
    }
    true
}

// Whether bytes are a name.
fn is_name(bytes: &[u8]) -> bool
    ensures { result ≡ is_none (name_fault bytes.now) }
{
    entry_key(Oid(0), bytes).is_ok()
}

// Where the part of a path ends that begins at a place: at the next slash, or at the end.
fn piece_end(path: &[u8], from: usize) -> usize
    requires { from ≤ length path.now }
    ensures from { from ≤ result }
    ensures within { result ≤ length path.now }
    ensures piece { pieces_of (drop from path.now) ≡ slice_range path.now from result ∷ pieces_from path.now (result + 1) }
{
    let mut end = from;
    while end < path.len() {
        if path[end] == b'/' {
            return end;
        }
        end += 1;
    }
    end
}
