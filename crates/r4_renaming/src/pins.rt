//! The nodes that are kept for tasks, under their new names.

ghost use Rattle.std.specs.Prelude.{◌≡◌, map, IfOk, IsSome, option_copied};
ghost use Rattle.r4_turns.specs.Turns.{HasNext, IsScript, turn_at, with_turn};
ghost use Rattle.r4_turns.specs.declared.turn.Turn.{Turn};
ghost use Rattle.r4_renaming.specs.Steps.{CanKeep, name_in, nodes_under, pins_then, turn_keeping, turns_keeping};

use crate::names::{Names, new_name};
use r4_base::{Memory, NodeId, ScriptNo};
use r4_turns::{Nodes, Out, Turns};
use std::alloc::Global;

/// For each script the nodes that are kept for its task, where one is out, under their new names.
pub(crate) fn read_pins(
    alloc: Global,
    turns: &Turns,
    names: &Names,
) -> Result<Vec<Option<Nodes>>, Memory>
    ensures { IfOk result (λ pins. pins.items
        ≡ map (λ (t : Turn). pins_then (name_in names.now) t.out) turns.now.turns) }
{
    let mut pins = Vec::new(alloc);
    for place in 0..turns.count() {
        pins.push(pins_of(alloc, turns.out(ScriptNo(place + 1)), names)?)?;
    }
    Ok(pins)
}

// The nodes that are kept for a task, where there is one, under their new names.
fn pins_of(alloc: Global, out: Option<&Out>, names: &Names) -> Result<Option<Nodes>, Memory>
    ensures { IfOk result (λ pins. pins
        ≡ pins_then (name_in names.now) (option_copied out.entry)) }
{
    match out {
        Some(out) => Ok(Some(new_nodes(alloc, out.pins.as_slice(), names)?)),
        None => Ok(None),
    }
}

// Nodes under their new names.
fn new_nodes(alloc: Global, nodes: &[NodeId], names: &Names) -> Result<Nodes, Memory>
    ensures { IfOk result (λ new. new ≡ nodes_under (name_in names.now) nodes.now) }
{
    let mut new = Vec::with_capacity(alloc, nodes.len())?;
    for node in nodes {
        let name = new_name(names, node.0);
        new.push(NodeId(name))?;
    }
    Ok(Nodes::from_vec(new))
}

/// These nodes are kept for the tasks that are out, those of each script at its place. No memory.
pub(crate) fn put_pins(turns: &mut Turns, mut pins: Vec<Option<Nodes>>)
    requires { CanKeep turns.old pins.items }
    ensures { turns.new
        ≡ record turns.old { turns = turns_keeping pins.items turns.old.turns } }
{
    for place in 0..turns.count() {
        put_one(turns, ScriptNo(place + 1), pins[place as usize].take());
    }
}

// These nodes are kept for the task of a script, where there are some.
fn put_one(turns: &mut Turns, script: ScriptNo, pins: Option<Nodes>)
    requires script { IsScript turns.old script.0 }
    requires is_out { IsSome pins → IsSome (turn_at turns.old script.0).out }
    requires next { IsSome pins → HasNext turns.old script.0 }
    ensures { turns.new ≡ with_turn turns.old script.0
        (turn_keeping pins (turn_at turns.old script.0)) }
{
    if let Some(pins) = pins {
        let out = turns.drop_out(script);
        turns.take_out(script, Out { pins, ..out });
    }
}
