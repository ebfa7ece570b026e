//! Laws of what a flush prepares (docs/durable.md, "From an open atom to its plan"). Each is the contract of a function
//! that does nothing.

ghost use Rattle.std.specs.Prelude.{◌≡◌, ◌^◌, ℕ, List, Contains, None, Some, true};
ghost use Rattle.r4_base.specs.Cell.{cell_fault};
ghost use Rattle.r4_base.specs.Key.{rank};
ghost use Rattle.r4_base.specs.Tree.{Name, Node};
ghost use Rattle.r4_base.specs.Value.{Content, Value};
ghost use Rattle.r4_content.specs.Locality.{Meaning};
ghost use Rattle.r4_content.specs.declared.command.Command.{Command};
ghost use Rattle.r4_content.specs.declared.reply.Reply.{Reply};
ghost use Rattle.r4_cell.specs.Seen.{CellSeen, node_of};
ghost use Rattle.r4_base.specs.Image.{Image};
ghost use Rattle.r4_base.specs.declared.superblock.Super40.{Super40};
ghost use Rattle.r4_base.specs.declared.things.AtomNo.{AtomNo};
ghost use Rattle.r4_base.specs.declared.things.BlockNo.{BlockNo};
ghost use Rattle.r4_space.specs.Space.{Space};
ghost use Rattle.r4_place.specs.Chosen.{AreChosen, fresh_blocks};
ghost use Rattle.r4_flushed.specs.r4_sealed.Commits.{HasPlan};
ghost use Rattle.r4_flushed.specs.r4_sets.Session.{Session, Sets};
ghost use Rattle.r4_flushed.specs.Flushed.{IsFlush, OwnsBlocks};
ghost use Rattle.r4_flushed.specs.r4_commit.Places.{place_of};
ghost use Rattle.r4_flushed.specs.r4_sets.Renaming.{IsRenamed};
ghost use Rattle.r4_flushed.specs.r4_placed.Flushing.{Flushing, IsAtRest, commit_by_block, name_after};
ghost use Rattle.r4_flush.specs.Anew.{BecomeBlocks, IsCellAnew, new_name};
ghost use Rattle.r4_flush.specs.Joined.{AreOwnCells, NameNoneChosen, flushed_cells, flushing_of};
ghost use Rattle.r4_flush.specs.Prepared.{IsPrepared};
ghost use Rattle.r4_flush.specs.declared.preparing.Prepared.{Prepared};

/// A name becomes what it changes places with, where it is none of the blocks that were chosen (`names`). A cell under
/// the new names is that cell renamed, where the names of what it names are the same by both, and its extents stand for
/// blocks that are not placed one by one, as where it may stand in memory on 2^63 blocks (`cells`).
pub fn names_are_those_of_blocks()
    ensures names { (n : ℕ) (work : Flushing) (m : Content) → IsAtRest n work m → (i : ℕ)
        → (Contains (fresh_blocks work.answers) i → ⊥)
        → new_name (place_of work.answers) i ≡ name_after work i }
    ensures cells { (f g : ℕ → ℕ) → BecomeBlocks f → (x y : CellSeen)
        → cell_fault true (2 ^ 63) x.level (rank x.lo) (rank x.hi) x.block ≡ None
        → ((z : Name) → Contains (node_of x).names z → f z.id ≡ g z.id) → IsCellAnew f x y
        → IsRenamed g (node_of x) (node_of y) }
{}

/// Where nothing is unflushed, no cell in memory stands on a block that was chosen, if each owned
/// block is that of a cell under the open atoms (`off`); so none of them names one (`named`).
pub fn chosen_blocks_are_free()
    ensures off { (w : Meaning Command Reply) (n : ℕ) (work : Flushing) (m : Content)
        (r : IsAtRest n work m) (c : Session) → Sets w c
        → ((i : ℕ) → c.under.cells i ≡ r.content.store i) → OwnsBlocks c → (i : ℕ) (d : Node Value)
        → c.memory i ≡ Some d → Contains (fresh_blocks work.answers) i → ⊥ }
    ensures named { (w : Meaning Command Reply) (n : ℕ) (work : Flushing) (m : Content)
        (r : IsAtRest n work m) (c : Session) → Sets w c
        → ((i : ℕ) → c.under.cells i ≡ r.content.store i) → OwnsBlocks c → (cells : List CellSeen)
        → ((x : CellSeen) → Contains cells x → c.memory x.id ≡ Some (node_of x))
        → NameNoneChosen cells work.answers }
{}

/// What is prepared for the cells that an atom owns in memory is a flush of it, where nothing is
/// unflushed, none of the cells names a block that was chosen, and each may stand in memory on 2^63
/// blocks (`flush`). The answers are those for the cells that are written, under the names that
/// they had (`chosen`); the plan is that of the commit that follows (`plan`); and the root has the
/// name that it gets (`root`).
pub fn prepared_atoms_are_flushed()
    ensures flush { (given : List CellSeen) (atom : AtomNo) (next : Super40) (last : BlockNo)
        (space : Space)
        (p : Prepared) (x : IsPrepared given atom next last space p) (base : Image) (n : ℕ)
        (m : Content)
        → IsAtRest n (flushing_of base space atom x.answers next last p) m → (c : Session)
        → AreOwnCells c atom given → NameNoneChosen given x.answers
        → IsFlush c (flushing_of base space atom x.answers next last p) }
    ensures chosen { (given : List CellSeen) (atom : AtomNo) (next : Super40) (last : BlockNo)
        (space : Space)
        (p : Prepared) (x : IsPrepared given atom next last space p)
        → AreChosen 22 space (flushed_cells p.renamed.items) x.answers }
    ensures plan { (given : List CellSeen) (atom : AtomNo) (next : Super40) (last : BlockNo)
        (space : Space)
        (p : Prepared) (x : IsPrepared given atom next last space p) (base : Image)
        → HasPlan (commit_by_block
        (flushing_of base space atom x.answers next last p) x.planned.plan) }
    ensures root { (given : List CellSeen) (atom : AtomNo) (next : Super40) (last : BlockNo)
        (space : Space)
        (p : Prepared) (x : IsPrepared given atom next last space p) (base : Image) (n : ℕ)
        (m : Content)
        → IsAtRest n (flushing_of base space atom x.answers next last p) m
        → (Contains (fresh_blocks x.answers) next.root_block → ⊥)
        → p.root.0 ≡ name_after
        (flushing_of base space atom x.answers next last p) next.root_block }
{}
