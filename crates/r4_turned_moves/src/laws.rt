//! A law of bodies that come to extents. It is the contract of a function that does nothing.

ghost use Rattle.r4_base.specs.Tree.{Store};
ghost use Rattle.r4_base.specs.Value.{Content, Value};
ghost use Rattle.r4_content.specs.Edited.{Edits};
ghost use Rattle.r4_extent_moves.specs.Moving.{ChangesBody, MovesBody};
ghost use Rattle.r4_extent_moves.specs.r4_applied.r4_reach.Touched.{Body};
ghost use Rattle.r4_extent_moves.specs.r4_extent_turned.Whole.{turned_keys, turned_values};
ghost use Rattle.r4_extent_moves.specs.r4_extent_turned.r4_extent_turn.Turning.{Turn};
ghost use Rattle.r4_turned_moves.specs.Turned.{TurnsBody};

/// The change of a body that comes out of tails, or had no bytes, to extents leaves at each key of
/// the body what is to stand there: in an extent, up to the end of its blocks, the byte that is
/// set, else the one that stood in tails, else 0; and nothing behind them. Else it moves just the
/// keys that the edits change. So the content becomes what the edits make of it, and each file
/// stands as files do, by the laws of r4_extent_moves (docs/volume.md, "Bodies in extents").
pub fn turned_bodies_move()
    ensures { (b : Body) (e : Edits) (u : Store Value) (raw n : Content) (x : Turn)
        → ChangesBody b e u raw n → TurnsBody b e u x
        → MovesBody b e u raw (turned_keys b e) (turned_values b e x) }
{}
