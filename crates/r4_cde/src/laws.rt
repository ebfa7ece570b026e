//! Laws of names and their keys. Each is the contract of a function that does nothing.

ghost use Rattle.std.specs.Prelude.{◌≡◌, ◌≢◌, ℕ, ◌-◌, ◌^◌, ◌<◌, ◌≤◌, List, None, Some, All, drop, length, slice_get, slice_index, take};
ghost use Rattle.r4_base.specs.declared.key.Key.{Key as EntryKey};
ghost use Rattle.r4_base.specs.declared.items.Target.{Target as EntryTarget};
ghost use Rattle.r4_base.specs.Key.{IsKey};
ghost use Rattle.r4_base.specs.Name.{IsShortNameKey, dir_of_key, is_long_key, is_long_name, key_of_name, name_fault, short_name_in};
ghost use Rattle.r4_base.specs.Dir.{dir_fault, entries_of, entry_at, entry_count};
ghost use Rattle.r4_base.specs.Entries.{AreIn, AreLawful, EntriesRise, IsLawfulEntry, entries_room, first_key};
ghost use Rattle.r4_cde.specs.Edits.{part_room};

/// The key of a name of at most 23 bytes is that name's, and no other such name has it; so `name_of_key` gives back the
/// name that `entry_key` was given. No name of more than 23 bytes has it. A key names its directory, and its numbers are
/// numbers of 64 bits (docs/layout.md, "Names").
pub fn name_law()
    ensures short { (dir : ℕ) (s : List ℕ) → name_fault s ≡ None → length s ≤ 23 → IsShortNameKey (key_of_name dir s) s }
    ensures one { (dir : ℕ) (s t : List ℕ) → All (λ c. c < 256) s → All (λ c. c < 256) t → name_fault s ≡ None → name_fault t ≡ None
        → length s ≤ 23 → length t ≤ 23 → key_of_name dir s ≡ key_of_name dir t → s ≡ t }
    ensures apart { (dir other : ℕ) (s t : List ℕ) → All (λ c. c < 256) s → All (λ c. c < 256) t → length s ≤ 23 → 23 < length t → key_of_name dir s ≢ key_of_name other t }
    ensures directory { (dir : ℕ) (s : List ℕ) → dir_of_key (key_of_name dir s) ≡ dir }
    ensures numbers { (dir : ℕ) (s : List ℕ) → dir < 2 ^ 60 → All (λ c. c < 256) s → IsKey (key_of_name dir s) }
{}

/// What is said of the entries of a body that is accepted under a key. They are in the key's directory, and say the same
/// under each key of it; the first has the key itself; their keys rise; each name is legal and the key is its. They take
/// up the body, and a part of them what `split` asks room for (docs/layout.md, "Items").
pub fn dir_law()
    ensures count { (item : EntryKey) (b : List ℕ) → length (entries_of item b) ≡ entry_count b }
    ensures entry { (item : EntryKey) (b : List ℕ) (i : ℕ) → i < entry_count b → slice_get (entries_of item b) i ≡ Some (entry_at item b i) }
    ensures within { (item : EntryKey) (b : List ℕ) → AreIn item (entries_of item b) }
    ensures same { (item other : EntryKey) (b : List ℕ) → slice_index item.el 0 ≡ slice_index other.el 0 → entries_of item b ≡ entries_of other b }
    ensures first { (item dir : EntryKey) (b : List ℕ) → IsKey item → slice_index dir.el 0 ≡ slice_index item.el 0 → dir_fault item b ≡ None → first_key dir b ≡ item }
    ensures rise { (item : EntryKey) (b : List ℕ) → dir_fault item b ≡ None → EntriesRise (entries_of item b) }
    ensures lawful { (item : EntryKey) (b : List ℕ) → IsKey item → All (λ c. c < 256) b → dir_fault item b ≡ None → AreLawful (entries_of item b) }
    ensures room { (item : EntryKey) (b : List ℕ) → dir_fault item b ≡ None → entries_room (entries_of item b) ≡ length b }
    ensures part { (item : EntryKey) (b : List ℕ) (first end : ℕ) → dir_fault item b ≡ None → first < end → end ≤ entry_count b
        → entries_room (take (end - first) (drop first (entries_of item b))) ≡ part_room b first end }
{}

/// The entry of a legal name in a directory is one that `insert` takes: with its bytes where it has more than 23, and else
/// by its key, which spells it (docs/layout.md, "Names").
pub fn given_law()
    ensures lawful { (dir : ℕ) (s : List ℕ) (t : EntryTarget) → name_fault s ≡ None → IsLawfulEntry (record { key = key_of_name dir s; target = t; name = s }) }
    ensures form { (dir : ℕ) (s : List ℕ) → All (λ c. c < 256) s → is_long_key (key_of_name dir s) ≡ is_long_name s }
    ensures short { (dir : ℕ) (s : List ℕ) → All (λ c. c < 256) s → name_fault s ≡ None → length s ≤ 23 → short_name_in (key_of_name dir s) ≡ s }
{}
