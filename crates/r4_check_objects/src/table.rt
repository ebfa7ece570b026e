//! Values under ids.

ghost use Rattle.std.specs.Prelude.{◌≡◌, ◌==◌, ℕ, IfOk, OnOk, if◌then◌else◌, slice_index_or};
ghost use Rattle.r4_check_objects.specs.Table.{is_near, value_at};

use r4_base::Memory;
use std::alloc::Global;
use std::collections::BTreeMap;

/// The ids from a first one on, so many.
#[derive(Clone, Copy)]
pub(crate) struct Span {
    pub(crate) first: u64,
    pub(crate) count: usize,
}

/// A value under each id. Those of a span stand in a list, so that one is found at once: a volume's
/// ids rise from `FIRST_OBJECT` on. The others stand in a map, so that its size follows what is put
/// into it, whatever ids a damaged image has.
#[derive(Drop)]
pub(crate) struct Table<T> {
    none: T,
    first: u64,
    near: Vec<T>,
    far: BTreeMap<u64, T>,
}

impl<T: Copy> Table<T> {
    /// A table of one value under all ids, of which those of a span stand in the list.
    pub(crate) fn new(alloc: Global, none: T, span: Span) -> Result<Table<T>, Memory>
        ensures { IfOk result (λ t. (q : ℕ) → value_at t q ≡ none) }
    {
        Ok(Table {
            none,
            first: span.first,
            near: filled(alloc, none, span.count)?,
            far: BTreeMap::new(alloc),
        })
    }

    /// The value under an id, where it stands.
    pub(crate) fn at(&self, id: u64) -> &T
        ensures { result.now ≡ value_at self.now id }
    {
        if self.is_near(id) {
            return &self.near[(id - self.first) as usize];
        }
        match self.far.get(&id) {
            Some(value) => value,
            None => &self.none,
        }
    }

    /// The value under an id.
    pub(crate) fn get(&self, id: u64) -> T
        ensures { result ≡ value_at self.now id }
    {
        *self.at(id)
    }

    /// Puts a value under an id, in the place of the one that is there.
    pub(crate) fn put(&mut self, id: u64, value: T) -> Result<(), Memory>
        ensures { OnOk result ((q : ℕ)
            → value_at self.new q ≡ (if id == q then value else value_at self.old q)) }
    {
        if self.is_near(id) {
            self.near[(id - self.first) as usize] = value;
            return Ok(());
        }
        self.far.insert(id, value)?;
        Ok(())
    }

    // Whether an id's value stands in the list.
    fn is_near(&self, id: u64) -> bool
        ensures { result ≡ is_near self.now id }
    {
        id >= self.first && id - self.first < self.near.len() as u64
    }
}

// A list of one value, so many times.
fn filled<T: Copy>(alloc: Global, value: T, count: usize) -> Result<Vec<T>, Memory>
    ensures { IfOk result (λ v. (q : ℕ) → slice_index_or v.items q value ≡ value) }
{
    let mut list = Vec::with_capacity(alloc, count)?;
    for _ in 0..count {
        list.push(value)?;
    }
    Ok(list)
}
