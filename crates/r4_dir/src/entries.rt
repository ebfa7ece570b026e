//! The entries of a directory that were seen (docs/commands.md, "Entries").

ghost use Rattle.std.specs.Prelude.{◌≡◌, ◌<◌, ◌^◌, ◌∷◌, [], IfOk, MatchOption, if◌then◌else◌};
ghost use Rattle.std.specs.List.{list_any};
ghost use Rattle.r4_base.specs.Key.{rank};
ghost use Rattle.r4_content.specs.Course.{Answer, Course};
ghost use Rattle.r4_content.specs.Edited.{is_between};
ghost use Rattle.r4_content.specs.Entries.{entries_from, entries_to, if_empty, names_in};
ghost use Rattle.r4_content.specs.Held.{pairs_of};
ghost use Rattle.r4_content.specs.Seen.{pairs_in};
ghost use Rattle.r4_content.specs.declared.reply.Reply.TheVariants.{Notempty};
ghost use Rattle.r4_dir.specs.Entries.{has_name, names_among, part_names};

use r4_base::{Key, Memory, Name, Oid, Value};
use r4_content::{Seen, SeenPart};
use std::alloc::Global;

/// Whether an entry of this directory was seen. Other values at the keys of its entries do not count.
pub(crate) fn has_entries(seen: &Seen, dir: Oid) -> bool
    requires { dir.0 < 2 ^ 60 }
    ensures { (next : Course)
        → if_empty next (names_in (pairs_in (pairs_of seen.now) (entries_from dir.0)
        (entries_to dir.0)))
        ≡ (if result then Answer Notempty else next) }
{
    is_any_entry(seen, dir)
}

// Whether a part is an entry of this directory.
fn is_any_entry(seen: &Seen, dir: Oid) -> bool
    requires { dir.0 < 2 ^ 60 }
    ensures { result ≡ list_any (has_name dir.0) seen.now.parts.items }
{
    let parts = seen.parts.as_slice();
    parts.iter().any(|part| is_entry(part, dir))
}

// Whether a part has the name of an entry of this directory.
fn is_entry(part: &SeenPart, dir: Oid) -> bool
    requires { dir.0 < 2 ^ 60 }
    ensures { result ≡ has_name dir.0 part.now }
{
    name_of(part, dir).is_some()
}

// Whether a key is that of an entry of this directory.
#[tactic(auto, unfolding(r4_base::specs::Key::rank))]
fn is_entry_of(key: Key, dir: Oid) -> bool
    requires { dir.0 < 2 ^ 60 }
    ensures { result ≡ is_between (entries_from dir.0) (entries_to dir.0) (rank key) }
{
    key.el[0] == dir.0 * 16
}

/// The names of the entries of this directory that were seen, in the order of their keys.
pub(crate) fn names_of(alloc: Global, seen: &Seen, dir: Oid) -> Result<Vec<Name>, Memory>
    requires { dir.0 < 2 ^ 60 }
    ensures { IfOk result (λ v. v.items
        ≡ names_in (pairs_in (pairs_of seen.now) (entries_from dir.0) (entries_to dir.0))) }
{
    collect_names(alloc, seen.parts.as_slice(), dir)
}

// The names of this directory's entries that the parts have.
fn collect_names(alloc: Global, parts: &[SeenPart], dir: Oid) -> Result<Vec<Name>, Memory>
    requires { dir.0 < 2 ^ 60 }
    ensures { IfOk result (λ v. v.items ≡ names_among dir.0 parts.now) }
{
    let mut names = Vec::new(alloc);
    for part in parts {
        if let Some(name) = name_of(part, dir) {
            names.push(name.share()?)?;
        }
    }
    Ok(names)
}

// The name of this directory's entry that a part has.
fn name_of(part: &SeenPart, dir: Oid) -> Option<&Name>
    requires { dir.0 < 2 ^ 60 }
    ensures { MatchOption result (part_names dir.0 part.now ≡ []) (λ n. part_names dir.0 part.now
        ≡ n.now ∷ []) }
{
    match part {
        SeenPart::One {
            key,
            value: Value::Entry(name, _),
        } => is_entry_of(*key, dir).then_some(name),
        _ => None,
    }
}
