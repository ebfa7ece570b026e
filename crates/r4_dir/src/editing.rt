//! The edits of commands on entries (docs/commands.md, "Edits").

ghost use Rattle.std.specs.Prelude.{◌≡◌, IfOk};
ghost use Rattle.r4_base.specs.Key.{rank, stat_key};
ghost use Rattle.r4_content.specs.Edited.{no_edits};
ghost use Rattle.r4_content.specs.Entries.{name_in};
ghost use Rattle.r4_content.specs.Held.{HoldsAtMost, ending_of};
ghost use Rattle.r4_content.specs.Objects.{entry_rank, set_attr};
ghost use Rattle.r4_content.specs.declared.reply.Reply.TheVariants.{Okay};
ghost use Rattle.r4_dir.specs.Changes.{edits_made};
ghost use Rattle.r4_dir.specs.Coming.{IsSmall, object_of};

use crate::attributes::entry_more;
use crate::object::Object;
use crate::ways::is_dir;
use r4_base::{Attr, Key, Memory, Name, Value};
use r4_content::{Edits, Interval, Reply};
use std::alloc::Global;

/// A reply, and nothing changes.
pub fn answer(alloc: Global, reply: Reply) -> Edits
    ensures ending { ending_of result ≡ record { edits = no_edits; reply = reply } }
    ensures flat { HoldsAtMost 0 0 0 result }
{
    Edits {
        cuts: Vec::new(alloc),
        zeros: Vec::new(alloc),
        fills: Vec::new(alloc),
        runs: Vec::new(alloc),
        puts: Vec::new(alloc),
        reply,
    }
}

/// Keys that go, and values that are put in.
#[derive(Drop)]
pub struct Changes {
    pub cuts: Vec<Interval>,
    pub puts: Vec<(Key, Value)>,
}

// No changes yet.
pub(crate) fn no_changes(alloc: Global) -> Changes
    ensures { edits_made result ≡ no_edits }
{
    Changes {
        cuts: Vec::new(alloc),
        puts: Vec::new(alloc),
    }
}

// These changes are all, and the command succeeds.
pub(crate) fn edits(alloc: Global, changes: Changes) -> Edits
    ensures { ending_of result ≡ record { edits = edits_made changes; reply = Okay } }
{
    Edits {
        cuts: changes.cuts,
        zeros: Vec::new(alloc),
        fills: Vec::new(alloc),
        runs: Vec::new(alloc),
        puts: changes.puts,
        reply: Reply::Okay,
    }
}

/// The key of an object's stat data.
pub fn stat_key(object: &Object) -> Key
    requires { IsSmall object.now }
    ensures { result
        ≡ stat_key object.now.target.locality object.now.target.ordering object.now.target.oid }
{
    let target = object.target;
    Key::stat(target.locality, target.ordering, target.oid)
}

/// An object gets these attributes.
pub fn set_attr(alloc: Global, object: &Object, attr: Attr) -> Result<Edits, Memory>
    requires { IsSmall object.now }
    ensures { IfOk result (λ e. ending_of e
        ≡ record { edits = set_attr (object_of object.now) attr; reply = Okay }) }
{
    let mut changes = no_changes(alloc);
    changes.puts.push((stat_key(object), Value::Attr(attr)))?;
    Ok(edits(alloc, changes))
}

/// An object gets a name in a directory; `key` is the name's.
pub(crate) fn name_in(
    alloc: Global,
    dir: &Object,
    key: Key,
    name: &Name,
    object: &Object,
) -> Result<Edits, Memory>
    requires key { rank key ≡ entry_rank dir.now.target name.now }
    requires dir { IsSmall dir.now }
    requires object { IsSmall object.now }
    ensures { IfOk result (λ e. ending_of e
        ≡ record {
          edits = name_in (object_of dir.now) name.now
              (object_of object.now);
          reply = Okay;
        }) }
{
    let more = entry_more(is_dir(object), dir.attr);
    let mut changes = no_changes(alloc);
    let entry = Value::Entry(name.share()?, object.target);
    changes.puts.push((key, entry))?;
    let attr = Value::Attr(object.attr);
    changes.puts.push((stat_key(object), attr))?;
    changes.puts.push((stat_key(dir), Value::Attr(more)))?;
    Ok(edits(alloc, changes))
}
