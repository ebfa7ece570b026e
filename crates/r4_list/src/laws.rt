//! Laws of the walk that prints a listing. Each is the contract of a function that does nothing.

ghost use Rattle.std.specs.Prelude.{◌≡◌, ◌↔◌, ℕ, ◌+◌, ◌<◌, ◌≤◌, suc, List, [], ◌∷◌, ◌++◌, length, Bool, true, false, codes, Some};
ghost use Rattle.r4_base.specs.Image.{Image};
ghost use Rattle.r4_base.specs.Value.{Content, Entry, at_key};
ghost use Rattle.r4_base.specs.Volume.{HasContent, IsReached, is_directory};
ghost use Rattle.r4_base.specs.declared.items.Attr.{Attr};
ghost use Rattle.r4_base.specs.declared.items.Target.{Target};
ghost use Rattle.r4_content.specs.Walk.{At, NoName, NoDirectory, NoEntry, attr_at, names_in, target_at, walk};
ghost use Rattle.r4_list.specs.Listing.{IsListing, file_text, line_of, lines_of, shown_path};
ghost use Rattle.r4_list.specs.Walking.{IsEnough, IsLeftAt, IsWalking, NoneBefore, NoneLeft, OpenDir, PrintsToo, open_dir, open_from, rest_of};

/// What is printed of an object is its line, and of a directory then what is left of it where all its entries are left. So
/// a walk begins.
pub fn walk_begins()
    ensures file { (m : Content) (steps : ℕ) (o : Target) (path : List ℕ) (a : Attr) → attr_at m o ≡ Some a → is_directory a ≡ false
        → lines_of m (suc steps) o path ≡ line_of a path }
    ensures dir { (m : Content) (steps : ℕ) (start : Target) (path : List ℕ) (a : Attr) → attr_at m start ≡ Some a → is_directory a ≡ true
        → lines_of m (suc steps) start path ≡ line_of a path ++ rest_of m steps (open_dir start path 0 ∷ []) }
    ensures walk { (m : Content) (s : ℕ) (start : Target) (path : List ℕ) (a : Attr) (printed : ℕ → Bool) → attr_at m start ≡ Some a → is_directory a ≡ true → IsReached m s start
        → ((d : ℕ) → (printed d ≡ true) ↔ (d ≡ start.oid.0)) → IsWalking m start (open_dir start path 0 ∷ []) printed }
{}

/// The first entry that is left of the directory that was opened last names an object. Where that is a file, its line is
/// the next one.
pub fn walk_meets_file()
    ensures object { (n : ℕ) (image : Image) (m : Content) → HasContent n image m → (k : ℕ) (name : List ℕ) (o : Target) → at_key m k ≡ Some (Entry name o)
        → (a : Attr) × (attr_at m o ≡ Some a) }
    ensures lines { (m : Content) (steps : ℕ) (f : OpenDir) (fs : List OpenDir) (k : ℕ) (name : List ℕ) (o : Target) (a : Attr) → IsLeftAt m f k name o → NoneBefore m f k
        → attr_at m o ≡ Some a → is_directory a ≡ false → length fs < steps
        → rest_of m steps (f ∷ fs) ≡ line_of a (f.path ++ 47 ∷ name) ++ rest_of m steps (open_from f (k + 1) ∷ fs) }
    ensures walk { (m : Content) (start : Target) (f : OpenDir) (fs : List OpenDir) (printed : ℕ → Bool) → IsWalking m start (f ∷ fs) printed
        → (k : ℕ) (name : List ℕ) (o : Target) → IsLeftAt m f k name o → IsWalking m start (open_from f (k + 1) ∷ fs) printed }
{}

/// Where it is a directory, that was not printed before; its line is the next one, and then come the lines of its entries.
pub fn walk_meets_directory()
    ensures new { (n : ℕ) (image : Image) (m : Content) → HasContent n image m → (start : Target) (f : OpenDir) (fs : List OpenDir) (printed : ℕ → Bool) → IsWalking m start (f ∷ fs) printed
        → (k : ℕ) (name : List ℕ) (o : Target) (a : Attr) → IsLeftAt m f k name o → attr_at m o ≡ Some a → is_directory a ≡ true → printed o.oid.0 ≡ false }
    ensures lines { (m : Content) (steps : ℕ) (f : OpenDir) (fs : List OpenDir) (k : ℕ) (name : List ℕ) (o : Target) (a : Attr) → IsLeftAt m f k name o → NoneBefore m f k
        → attr_at m o ≡ Some a → is_directory a ≡ true → length fs < steps
        → rest_of m steps (f ∷ fs) ≡ line_of a (f.path ++ 47 ∷ name) ++ rest_of m steps (open_dir o (f.path ++ 47 ∷ name) 0 ∷ open_from f (k + 1) ∷ fs) }
    ensures walk { (n : ℕ) (image : Image) (m : Content) → HasContent n image m → (start : Target) (f : OpenDir) (fs : List OpenDir) (printed next : ℕ → Bool) → IsWalking m start (f ∷ fs) printed
        → (k : ℕ) (name : List ℕ) (o : Target) (a : Attr) (path : List ℕ) → IsLeftAt m f k name o → attr_at m o ≡ Some a → is_directory a ≡ true → PrintsToo printed o.oid.0 next
        → IsWalking m start (open_dir o path 0 ∷ open_from f (k + 1) ∷ fs) next }
{}

/// What is left is the same from a later key on where no entry that is left has a key before it. A walk goes on where some
/// keys of the directory that was opened last are passed.
pub fn walk_passes()
    ensures lines { (m : Content) (steps : ℕ) (f : OpenDir) (fs : List OpenDir) (to : ℕ) → f.from ≤ to → NoneBefore m f to
        → rest_of m steps (f ∷ fs) ≡ rest_of m steps (open_from f to ∷ fs) }
    ensures walk { (m : Content) (start : Target) (f : OpenDir) (fs : List OpenDir) (printed : ℕ → Bool) (to : ℕ) → f.from ≤ to → IsWalking m start (f ∷ fs) printed
        → IsWalking m start (open_from f to ∷ fs) printed }
{}

/// A directory of which no entry is left is left.
pub fn walk_leaves()
    ensures lines { (m : Content) (steps : ℕ) (f : OpenDir) (fs : List OpenDir) → NoneLeft m f → rest_of m steps (f ∷ fs) ≡ rest_of m steps fs }
    ensures walk { (m : Content) (start : Target) (f : OpenDir) (fs : List OpenDir) (printed : ℕ → Bool) → IsWalking m start (f ∷ fs) printed → IsWalking m start fs printed }
    ensures none { (m : Content) (steps : ℕ) → rest_of m steps [] ≡ [] }
{}

/// A directory is reached by one number of steps. The directories that walks open are never more than some number. So there
/// is a number of steps from which on any is enough.
pub fn walk_is_bounded()
    ensures depth { (n : ℕ) (image : Image) (m : Content) → HasContent n image m → (s t : ℕ) (o : Target) (a : Attr) → attr_at m o ≡ Some a → is_directory a ≡ true
        → IsReached m s o → IsReached m t o → s ≡ t }
    ensures length { (n : ℕ) (image : Image) (m : Content) → HasContent n image m
        → (deep : ℕ) × ((start : Target) (fs : List OpenDir) (printed : ℕ → Bool) → IsWalking m start fs printed → length fs ≤ deep) }
    ensures enough { (n : ℕ) (image : Image) (m : Content) → HasContent n image m → (deep : ℕ) × ((steps : ℕ) → deep ≤ steps → IsEnough m steps) }
{}

/// What a name names in a directory, and where a path leads, is an object that is reached from the root.
pub fn path_is_reached()
    ensures step { (n : ℕ) (image : Image) (m : Content) → HasContent n image m → (dir : ℕ) (name : List ℕ) (o : Target) → target_at m dir name ≡ Some o
        → (a : Attr) × (s : ℕ) × (attr_at m o ≡ Some a) × IsReached m s o }
    ensures walk { (n : ℕ) (image : Image) (m : Content) → HasContent n image m → (names : List (List ℕ)) (o : Target) (a : Attr) → walk m names ≡ At o a
        → (s : ℕ) × IsReached m s o × (attr_at m o ≡ Some a) }
{}

/// A path has one listing: where it leads to an object, the object's lines, with steps that are enough, and a file's bytes;
/// and else a word that says why it leads nowhere.
pub fn path_is_listed()
    ensures some { (n : ℕ) (image : Image) (m : Content) → HasContent n image m → (path : List ℕ) → (text : List ℕ) × IsListing m path text }
    ensures one { (m : Content) (path text other : List ℕ) → IsListing m path text → IsListing m path other → text ≡ other }
    ensures object { (n : ℕ) (image : Image) (m : Content) → HasContent n image m → (path text : List ℕ) (o : Target) (a : Attr) → walk m (names_in path) ≡ At o a
        → ((steps : ℕ) → IsEnough m steps → text ≡ lines_of m (suc steps) o (shown_path path) ++ file_text m o a) → IsListing m path text }
    ensures no_name { (m : Content) (path : List ℕ) → walk m (names_in path) ≡ NoName → IsListing m path (codes "name\n") }
    ensures no_directory { (m : Content) (path : List ℕ) → walk m (names_in path) ≡ NoDirectory → IsListing m path (codes "notdir\n") }
    ensures no_entry { (m : Content) (path : List ℕ) → walk m (names_in path) ≡ NoEntry → IsListing m path (codes "absent\n") }
{}
