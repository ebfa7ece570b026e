//! Scripts that wait at `commit` for an atom.

ghost use Rattle.std.specs.Prelude.{◌≡◌, List, MatchBool, None};
ghost use Rattle.r4_base.specs.declared.things.ScriptNo.{ScriptNo as Number};
ghost use Rattle.r4_seal.specs.Waiting.{AreWaiting, HasTxnIn, RefusesIfWaiting, WaitsAtCommit};
ghost use Rattle.r4_seal.specs.Waiting.{all_refused};
ghost use Rattle.r4_turns.specs.Turns.{IsScript};

use r4_atoms::Atoms;
use r4_base::{AtomNo, ScriptNo, TxnNo};
use r4_content::{Command, Reply};
use r4_core::Core;
use r4_outside::{Device, Run};

// Whether a transaction of the script is in the atom.
fn has_txn_in(atoms: &Atoms, script: ScriptNo, atom: AtomNo) -> bool
    ensures { MatchBool result (HasTxnIn atoms.now script.0 atom.0)
        (HasTxnIn atoms.now script.0 atom.0 → ⊥) }
{
    for at in 0..atoms.begun() {
        let txn = TxnNo(at + 1);
        if atoms.script(txn) == script && atoms.atom(txn) == atom {
            return true;
        }
    }
    false
}

// Whether a script waits for the atom.
fn waits<D: Device, R: Run>(core: &Core<D, R>, atom: AtomNo, script: ScriptNo) -> bool
    requires { IsScript core.now.turns script.0 }
    ensures { MatchBool result (WaitsAtCommit core.now atom.0 script.0)
        (WaitsAtCommit core.now atom.0 script.0 → ⊥) }
{
    core.turns().out(script).is_none()
        && matches!(core.turns().command(script), Some(Command::Commit))
        && has_txn_in(core.atoms(), script, atom)
}

/// Each `commit` at which a script waits for the atom is refused for want of memory, by rising script. It takes no
/// memory: each has its entry.
pub(crate) fn refuse_waiting<D: Device, R: Run>(core: &mut Core<D, R>, atom: AtomNo)
    requires { core.old.broken ≡ None }
    ensures { (scripts : List Number) × AreWaiting core.old atom.0 scripts
        × (core.new ≡ all_refused core.old scripts) }
{
    for at in 0..core.turns().count() {
        refuse_if_waiting(core, atom, ScriptNo(at + 1));
    }
}

// So it is of one script, if it waits.
fn refuse_if_waiting<D: Device, R: Run>(core: &mut Core<D, R>, atom: AtomNo, script: ScriptNo)
    requires sound { core.old.broken ≡ None }
    requires script { IsScript core.old.turns script.0 }
    ensures { RefusesIfWaiting core.old core.new atom.0 script }
{
    core.lawful();
    if waits(core, atom, script) {
        core.refuse(script, TxnNo(0), Reply::Memory);
    }
}
