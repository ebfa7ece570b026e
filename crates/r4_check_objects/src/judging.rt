//! What is wrong with an id.

ghost use Rattle.std.specs.Prelude.{◌≡◌, ◌++◌, ◌≤◌, List, OnOk, map};
ghost use Rattle.r4_check_objects.specs.Faults.{fault_at};
ghost use Rattle.r4_check_objects.specs.Known.{IsJudge};
ghost use Rattle.r4_check_objects.specs.Objects.{block_of, block_under, body_fits, faults_under, id_is_wrong, is_lost, is_unmet};
ghost use Rattle.r4_check_objects.specs.Objects.{links_are_wrong, judged_owner, links_fit, size_fits, size_is_wrong, what_if};
ghost use Rattle.r4_check_objects.specs.declared.held.Held.{Held as Found};

use crate::fault::{Fault, What};
use crate::heads::owner_of;
use crate::held::{Facts, Held, is_same};
use crate::known::Known;
use crate::totals::Totals;
use r4_base::{BLOCK_BYTES, BlockNo, GREATEST_SIZE, Memory, ROOT_OBJECT, Super40};

/// What the faults of an id rest on: the superblock, the leftmost leaf, and what is known and added up.
#[derive(Drop)]
pub(crate) struct Judge {
    pub(crate) super40: Super40,
    pub(crate) leaf: u64,
    pub(crate) known: Known,
    pub(crate) totals: Totals,
}

impl Judge {
    /// Adds the faults of an id.
    pub(crate) fn add_faults(&self, faults: &mut Vec<Fault>, id: u64) -> Result<(), Memory>
        ensures { (found : List Found) → IsJudge found self.now → OnOk result (faults.new.items
            ≡ faults.old.items ++ faults_under self.now.super40 self.now.leaf found id) }
    {
        let block = BlockNo(self.block_of(id));
        add_if(faults, self.size_is_wrong(id), block, What::Size)?;
        add_if(faults, self.links_are_wrong(id), block, What::Links)?;
        add_if(faults, self.is_lost(id), block, What::Lost)?;
        add_if(faults, self.id_is_wrong(id), block, What::Id)?;
        Ok(())
    }

    // The block at which the faults of an id are named.
    fn block_of(&self, id: u64) -> u64
        ensures { (found : List Found) → IsJudge found self.now
            → result ≡ block_of self.now.leaf found id }
    {
        match self.known.heads.at(id) {
            Some(head) => self.block_under(id, head),
            None => self.leaf,
        }
    }

    // The same, where this comes first under the id.
    fn block_under(&self, id: u64, head: &Held) -> u64
        ensures { result ≡ block_under self.now.leaf id head.now }
    {
        if id != ROOT_OBJECT.oid.0 || head.is_stat_data() {
            head.block
        } else {
            self.leaf
        }
    }

    // The object that owns an id: whether it is the root, and its facts.
    fn owner(&self, id: u64) -> Option<(bool, Facts)>
        ensures { (found : List Found) → IsJudge found self.now → result ≡ judged_owner found id }
    {
        let owner = owner_of(&self.known.heads, id)?;
        let facts = owner.facts()?;
        Some((is_same(&owner.object(), &ROOT_OBJECT), facts))
    }

    fn size_is_wrong(&self, id: u64) -> bool
        ensures { (found : List Found) → IsJudge found self.now
            → result ≡ size_is_wrong found id }
    {
        match self.owner(id) {
            Some((_, facts)) => !self.size_fits(id, facts),
            None => false,
        }
    }

    fn links_are_wrong(&self, id: u64) -> bool
        ensures { (found : List Found) → IsJudge found self.now
            → result ≡ links_are_wrong found id }
    {
        match self.owner(id) {
            Some((root, facts)) => !self.links_fit(id, root, facts),
            None => false,
        }
    }

    fn is_lost(&self, id: u64) -> bool
        ensures { (found : List Found) → IsJudge found self.now → result ≡ is_lost found id }
    {
        self.totals.strays.get(id) > 0
            || self.is_unmet(id)
            || id == ROOT_OBJECT.oid.0 && self.known.facts_at(&ROOT_OBJECT).is_none()
    }

    // Whether an object that is not the root owns the id, and is not reached.
    fn is_unmet(&self, id: u64) -> bool
        ensures { (found : List Found) → IsJudge found self.now → result ≡ is_unmet found id }
    {
        match self.owner(id) {
            Some((root, _)) => !root && self.totals.reached.get(id) == 0,
            None => false,
        }
    }

    fn id_is_wrong(&self, id: u64) -> bool
        ensures { (found : List Found) → IsJudge found self.now
            → result ≡ id_is_wrong self.now.super40 found id }
    {
        owner_of(&self.known.heads, id).is_some()
            && (id < ROOT_OBJECT.oid.0 || id >= self.super40.oid)
    }

    fn size_fits(&self, id: u64, facts: Facts) -> bool
        ensures { (found : List Found) → IsJudge found self.now
            → result ≡ size_fits found id facts }
    {
        if facts.bytes != facts.size {
            return false;
        }
        if facts.directory {
            return facts.size == self.totals.entries.get(id);
        }
        facts.size <= GREATEST_SIZE
            && self.totals.past.get(id) == 0
            && body_fits(
                facts.size,
                self.totals.tails.get(id),
                self.totals.blocks.get(id),
            )
    }

    fn links_fit(&self, id: u64, root: bool, facts: Facts) -> bool
        ensures { (found : List Found) → IsJudge found self.now
            → result ≡ links_fit found id root facts }
    {
        let links = self.totals.links.get(id);
        let nlink = u64::from(facts.nlink);
        if !facts.directory {
            return nlink == links;
        }
        nlink >= 2
            && nlink - 2 == self.totals.directories.get(id)
            && (links == 0 || !root && links == 1)
    }
}

// Whether a body of a size is in tails alone or in extents alone.
fn body_fits(size: u64, tails: u64, blocks: u64) -> bool
    requires { size ≤ GREATEST_SIZE }
    ensures { result ≡ body_fits size tails blocks }
{
    tails == size && blocks == 0 || tails == 0 && blocks == size.div_ceil(BLOCK_BYTES)
}

// Adds a fault where there is one.
fn add_if(faults: &mut Vec<Fault>, wrong: bool, block: BlockNo, what: What) -> Result<(), Memory>
    ensures { OnOk result (faults.new.items
        ≡ faults.old.items ++ map (fault_at block.0) (what_if wrong what)) }
{
    if wrong {
        faults.push(Fault { block, what })?;
    }
    Ok(())
}
