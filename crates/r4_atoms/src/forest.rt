//! Sets of numbers that are joined two by two, each named by its smallest member.

ghost use Rattle.std.specs.Prelude.{◌≡◌, ◌≢◌, ◌+◌, ◌-◌, ◌^◌, ◌<◌, ◌≤◌, ◌∷◌, ◌++◌, [], length, max, map, slice_index, OnOk, OnErr, vec_len, vec_capacity};
ghost use Rattle.r4_atoms.specs.Names.{AreNames, renamed};
ghost use Rattle.r4_atoms.specs.Forest.{IsForest, IsTop, linked, root_of};

use r4_base::Memory;
use std::alloc::Global;
use std::marker::Model;

/// A member: the member above it, which is itself at the top of a set. Of a top, how many members its set has, and the
/// smallest of them.
#[derive(Clone, Copy)]
pub struct Link {
    pub up: u32,
    pub size: u32,
    pub name: u32,
    pub top: bool,
}

/// The sets of the numbers below a length: contracts see the name of each number's set. There is room for `spare` more
/// numbers.
#[derive(Drop)]
pub struct Forest {
    links: Vec<Link>,
    spare: u64,
}

impl Model for Forest {
    ghost use Rattle.std.specs.Prelude.{vec_capacity};
    ghost use Rattle.r4_atoms.specs.Names.{Names};

    ghost Value = { Names };

    ghost use Rattle.r4_atoms.specs.Names.{AreNames, renamed};
    ghost use Rattle.r4_atoms.specs.Forest.{names_of, HasRoom};

    ghost view = { λ f. record { names = names_of f.links.items; spare = f.spare } };

    ghost invariant = { λ f. HasRoom f.links.items f.spare (vec_capacity f.links) };
}

impl Forest {
    /// No number, and room for none. It takes no memory.
    pub fn new(alloc: Global) -> Forest
        ensures { result ≡ record { names = []; spare = 0 } }
    {
        Forest {
            links: Vec::new(alloc),
            spare: 0,
        }
    }

    /// How many numbers there are.
    pub fn len(&self) -> u32
        ensures { result ≡ length self.now.names }
    {
        self.links.len() as u32
    }

    /// For how many more numbers there is room.
    pub fn spare(&self) -> u64
        ensures { result ≡ self.now.spare }
    {
        self.spare
    }

    /// What holds of all names. It does nothing.
    pub fn lawful(&self)
        ensures few { length self.now.names < 2 ^ 32 }
        ensures named { AreNames self.now.names }
    {
        let _ = &self.links;
    }

    /// Makes room for at least so many more numbers. The only error is want of memory.
    pub fn room(&mut self, numbers: u64) -> Result<(), Memory>
        ensures ok { OnOk result (self.new ≡ record self.old { spare = max self.old.spare numbers }) }
        ensures err { OnErr result (self.new ≡ self.old) }
    {
        if self.spare < numbers {
            self.links.reserve(numbers as usize)?;
            self.spare = numbers;
        }
        Ok(())
    }

    /// Makes a set of its own of the next number, for which there has to be room.
    pub fn push(&mut self)
        requires room { 0 < self.old.spare }
        requires few { length self.old.names < 4294967295 }
        ensures names { self.new.names ≡ self.old.names ++ length self.old.names ∷ [] }
        ensures spare { self.new.spare ≡ self.old.spare - 1 }
    {
        let next = self.links.len() as u32;
        add(
            &mut self.links,
            Link {
                up: next,
                size: 1,
                name: next,
                top: true,
            },
        );
        self.spare -= 1;
    }

    /// Makes one set of two, of which the smaller name stays.
    pub fn join(&mut self, kept: u32, gone: u32)
        requires less { kept < gone }
        requires within { gone < length self.old.names }
        requires kept { slice_index self.old.names kept ≡ kept }
        requires gone { slice_index self.old.names gone ≡ gone }
        ensures names { self.new.names ≡ map (renamed kept gone) self.old.names }
        ensures spare { self.new.spare ≡ self.old.spare }
    {
        let left = root(self.links.as_slice(), kept);
        let right = root(self.links.as_slice(), gone);
        if self.links[left as usize].size < self.links[right as usize].size {
            put_under(self.links.as_mut_slice(), left, right, kept);
        } else {
            put_under(self.links.as_mut_slice(), right, left, kept);
        }
    }

    /// The name of a number's set.
    pub fn name(&self, at: u32) -> u32
        requires { at < length self.now.names }
        ensures { result ≡ slice_index self.now.names at }
    {
        let root = root(self.links.as_slice(), at);
        self.links[root as usize].name
    }
}

// The top of a number's set.
fn root(links: &[Link], mut at: u32) -> u32
    requires forest { IsForest links.now }
    requires within { at < length links.now }
    ensures root { result ≡ root_of links.now at }
    ensures top { IsTop links.now result }
{
    while !links[at as usize].top {
        at = links[at as usize].up;
    }
    at
}

// Puts the top `hang` under the top `keep`, which gets the name.
fn put_under(links: &mut [Link], hang: u32, keep: u32, name: u32)
    requires forest { IsForest links.old }
    requires hang { IsTop links.old hang }
    requires keep { IsTop links.old keep }
    requires differ { hang ≢ keep }
    requires few { length links.old < 2 ^ 32 }
    ensures { links.new ≡ linked links.old hang keep name }
{
    let under = &mut links[hang as usize];
    under.up = keep;
    under.top = false;
    let size = under.size;
    let over = &mut links[keep as usize];
    over.size += size;
    over.name = name;
}

// Adds a link for which there is room.
fn add(links: &mut Vec<Link>, link: Link)
    requires { vec_len links.old < vec_capacity links.old }
    ensures items { links.new.items ≡ links.old.items ++ link ∷ [] }
    ensures capacity { vec_capacity links.old ≤ vec_capacity links.new }
{
    let _ = links.push(link);
}
