//! Small changes, by computation. Each is the contract of a function that does nothing.

ghost use Rattle.std.specs.Prelude.{◌≡◌, ◌+◌, ◌*◌, ◌^◌, [], ◌∷◌, ◌++◌, ◌-◌, codes, true, false, None, Some};
ghost use Rattle.r4_base.specs.Fresh.{root_key};
ghost use Rattle.r4_base.specs.Key.{least, rank};
ghost use Rattle.r4_base.specs.Value.{Byte};
ghost use Rattle.r4_base.specs.Volume.{root_object, stat_rank};
ghost use Rattle.r4_path.specs.r4_branch.Pieces.{twig_bytes};
ghost use Rattle.r4_content.specs.Examples.{at, at_key_of, f, made, three_bytes, way_to_f};
ghost use Rattle.r4_content.specs.declared.command.Command.TheVariants.{Truncate, Write};
ghost use Rattle.r4_reach.specs.Examples.{behind, byte, hole_twig, leaf_gone, left_leaf, no_puts, other_file};
ghost use Rattle.r4_reach.specs.Examples.{tail_leaf, three, three_grow, turning, pointer_to, put_at, spread, twig};
ghost use Rattle.r4_reach.specs.Examples.{two_more, unit_at};
ghost use Rattle.r4_reach.specs.Needs.{changes_pieces, cut_pieces, filled, leaf_asks, left_leaves, moves};
ghost use Rattle.r4_reach.specs.Needs.{pieces_after, put_among, twig_more, twig_need, with_coming};
ghost use Rattle.r4_reach.specs.Touched.{changes_on, coming, going, reads_on};

/// On a file of three bytes in tails: keys that are read and changed. Its last byte is read where it becomes longer;
/// where its body turns to extents, all keys of its blocks count as changed.
pub fn touched_examples()
    ensures truncate { changes_on (Truncate (at f) 1) three_bytes false
        ≡ at_key_of (stat_rank (made f 65536)) ∷ (byte 1, byte 3) ∷ [] }
    ensures truncate_reads { reads_on (Truncate (at f) 1) three_bytes false ≡ way_to_f }
    ensures grows_reads { reads_on (Truncate (at f) 5) three_bytes false
        ≡ way_to_f ++ (byte 2, byte 2 + 1) ∷ [] }
    ensures turn { changes_on (Write (at f) 16384 (codes "b")) three_bytes false
        ≡ (byte 0, byte 20480) ∷ (byte 16384, byte 20480)
        ∷ at_key_of (stat_rank (made f 65536)) ∷ (byte 0, byte 16384) ∷ [] }
{}

/// Pieces of a twig: a hole that gets a block; blocks that go, with a leaf left of them and without; and blocks that
/// come.
pub fn piece_examples()
    ensures hole { filled (spread 12288 12288) (put_at 5000) (unit_at 0 0 3)
        ≡ unit_at 0 0 1 ∷ unit_at 1 (2 ^ 63) 1 ∷ unit_at 2 0 1 ∷ [] }
    ensures block { filled (spread 12288 12288) (put_at 5000) (unit_at 0 24 3) ≡ unit_at 0 24 3 ∷ [] }
    ensures bytes { twig_bytes (filled (spread 12288 12288) (put_at 5000) (unit_at 0 0 3)) ≡ 86 }
    ensures goes { going (spread 12288 5000) ≡ (byte 8192, byte 12288) }
    ensures cut { cut_pieces (byte 8192, byte 12288) (twig 5 (left_leaf 5 ∷ [])) (pointer_to 5 23 ∷ unit_at 0 24 3 ∷ [])
        ≡ pointer_to 5 23 ∷ unit_at 0 24 2 ∷ [] }
    ensures all { cut_pieces (byte 0, byte 12288) (twig 5 (left_leaf 5 ∷ [])) (pointer_to 5 23 ∷ unit_at 0 24 3 ∷ [])
        ≡ pointer_to 5 23 ∷ [] }
    ensures first { cut_pieces (byte 0, byte 12288) (twig (byte 0) []) (unit_at 0 24 3 ∷ [])
        ≡ pointer_to (byte 0) (2 ^ 63) ∷ [] }
    ensures comes { coming (spread 12288 20480) ≡ (byte 12288, byte 20480) }
    ensures grown { with_coming (spread 12288 20480) (put_at 20479)
        (twig 5 (left_leaf 5 ∷ [])) (pointer_to 5 23 ∷ unit_at 0 24 3 ∷ [])
        ≡ pointer_to 5 23 ∷ unit_at 0 24 3 ∷ unit_at 3 0 1
        ∷ unit_at 4 (2 ^ 63) 1 ∷ [] }
{}

/// A twig with a pointer, an extent of two blocks and a hole: which edits change its pieces, and what it needs.
pub fn twig_examples()
    ensures overwritten { changes_pieces (Some (spread 12288 12288)) (put_at 5000) hole_twig ≡ false }
    ensures filled { changes_pieces (Some (spread 12288 12288)) (put_at 9000) hole_twig ≡ true }
    ensures hole_goes { changes_pieces (Some (spread 12288 8192)) no_puts hole_twig ≡ true }
    ensures grows { changes_pieces (Some (spread 12288 12289)) (put_at 12288) hole_twig ≡ true }
    ensures after { pieces_after (Some (spread 12288 8192)) no_puts hole_twig []
        ≡ pointer_to least 23 ∷ unit_at 0 24 2 ∷ [] }
    ensures after_growth { pieces_after (Some (spread 12288 16385)) (put_at 16384) hole_twig []
        ≡ pointer_to least 23 ∷ unit_at 0 24 2 ∷ unit_at 2 0 1 ∷ unit_at 3 0 1
        ∷ unit_at 4 (2 ^ 63) 1 ∷ [] }
    ensures beside { left_leaves (Some (spread 12288 0)) hole_twig ≡ left_leaf (rank root_key) ∷ [] }
    ensures not_beside { left_leaves (Some (spread 12288 4096)) hole_twig ≡ [] }
    ensures leaves { twig_more None no_puts hole_twig three_grow ≡ 3 }
    ensures pointers { twig_need (Some (spread 12288 12288)) (put_at 5000) hole_twig two_more ≡ 46 + 70 + 92 }
    ensures pieces { twig_need (Some (spread 12288 8192)) no_puts hole_twig two_more ≡ 46 + 54 + 92 }
{}

/// A body that turns to extents, and values that are put into an extent's range: leaves that are cut in two or go,
/// twigs whose border moves, and new leaves.
pub fn leaf_examples()
    ensures cut { leaf_asks (Some turning) (put_at 16384) (tail_leaf 5 (2 ^ 256 - 1) ((6, Byte 9) ∷ three ++ (behind, Byte 8) ∷ []))
        ≡ Some (record { more = 1; gone = false }) }
    ensures left { leaf_asks (Some turning) (put_at 16384) (tail_leaf 5 (2 ^ 256 - 1) ((6, Byte 9) ∷ three))
        ≡ Some (record { more = 0; gone = false }) }
    ensures goes { leaf_asks (Some turning) (put_at 16384) (tail_leaf (byte 0) (2 ^ 256 - 1) three)
        ≡ Some (record { more = 0; gone = true }) }
    ensures right { leaf_asks (Some turning) (put_at 16384) (tail_leaf (byte 0) (2 ^ 256 - 1) (three ++ (behind, Byte 8) ∷ []))
        ≡ Some (record { more = 0; gone = false }) }
    ensures away { leaf_asks (Some turning) (put_at 16384) (tail_leaf behind (2 ^ 256 - 1) ((behind, Byte 8) ∷ []))
        ≡ None }
    ensures moves { moves (coming turning) (twig (byte 4000) []) ≡ true }
    ensures stays { moves (coming turning) (twig (byte 0) []) ≡ false }
    ensures behind { moves (coming turning) (twig (byte 20480) []) ≡ false }
    ensures turned { pieces_after (Some turning) (put_at 16384) hole_twig leaf_gone
        ≡ unit_at 0 (2 ^ 63) 1 ∷ unit_at 1 0 3 ∷ unit_at 4 (2 ^ 63) 1 ∷ unit_at 0 24 2 ∷ unit_at 2 0 1 ∷ [] }
    ensures among { put_among None other_file hole_twig ≡ 1 }
    ensures among_changes { changes_pieces None other_file hole_twig ≡ true }
    ensures among_needs { twig_need None other_file hole_twig [] ≡ 46 + 70 + 46 }
{}
