//! The turns of a job's scripts.

ghost use Rattle.std.specs.Prelude.{◌≡◌, ℕ, ◌+◌, ◌-◌, ◌<◌, ◌≤◌, List, length, slice_get, Option, None, Some, IsSome, IfOk, OnOk, OnErr, IfSome, IsTrue, ◌↔◌, true, false};
ghost use Rattle.std.specs.List.{position};
ghost use Rattle.std.specs.Option.{option_copied};
ghost use Rattle.r4_turns.specs.declared.turn.Turn.{Turn};
ghost use Rattle.r4_turns.specs.Turns.{IsScript, turn_at, commands_at, answered_at, with_command, entered, left, answered_one, gone_out, dropped, given_back, HasNext, pending_in, started, IsBefore, IsBehind, IsNext, script_of, is_task};
ghost use Rattle.r4_turns.specs.Kept.{IsFirstUpTo};

use crate::job::{add_command, is_small};
use crate::out::{Numbers, Out};
use crate::turn::{Open, Pending, Turn, first_turns};
use r4_base::{Memory, ScriptNo, TaskId, TxnNo};
use r4_content::Command;
use r4_script::Job;
use std::alloc::Global;
use std::marker::Model;

/// A job, and for each of its scripts how many commands are answered, the transaction that is open, the task that is out,
/// at most one, and the numbers that are kept for its next command.
#[derive(Drop)]
pub struct Turns {
    job: Job,
    turns: Vec<Turn>,
}

impl Model for Turns {
    ghost use Rattle.r4_turns.specs.Turns.{TurnsSeen};
    ghost use Rattle.r4_turns.specs.Kept.{AreTurns};

    ghost Value = { TurnsSeen };

    ghost view = { λ t. record { job = t.job; turns = t.turns.items } };

    ghost invariant = { λ t. AreTurns t.job t.turns.items };
}

impl Turns {
    /// The turns of a job, of which nothing is answered, open or out, and no number is kept. `Memory` comes where there is not
    /// enough, and where there are 2^32 scripts, or a script has as many commands, which no text spells; the job is dropped
    /// then.
    pub fn new(alloc: Global, job: Job) -> Result<Turns, Memory>
        ensures { IfOk result (λ t. t ≡ started job) }
    {
        if !is_small(&job) {
            return Err(Memory);
        }
        let turns = first_turns(alloc, job.scripts.as_slice().len())?;
        Ok(Turns { job, turns })
    }

    /// The job as it stands now. No memory.
    pub fn job(&self) -> &Job
        ensures { result.now ≡ self.now.job }
    {
        &self.job
    }

    /// The number of scripts. No memory.
    pub fn count(&self) -> u32
        ensures turns { result ≡ length self.now.turns }
        ensures scripts { result ≡ length self.now.job.scripts }
    {
        self.turns.len() as u32
    }

    /// No more commands of a script are answered than it has.
    pub fn lawful(&self)
        ensures { (s : ℕ) → answered_at self.now s ≤ length (commands_at self.now s) }
    {
        let _ = &self.turns;
    }

    /// The first script that stands behind this one, or the first of all, in the order of fewest answered commands and then
    /// smallest number. Every script counts, whatever is answered or out. No memory.
    pub fn next_behind(&self, last: Option<ScriptNo>) -> Option<ScriptNo>
        requires { IfSome last (λ s. IsScript self.now s.0) }
        ensures next { IfSome result (λ s. IsNext self.now last s.0) }
        ensures none { result ≡ None → (s : ℕ) → IsBehind self.now last s → ⊥ }
    {
        let mut best = None;
        for i in 0..self.turns.len() {
            best = self.better(last, best, ScriptNo(i as u32 + 1));
        }
        best
    }

    /// How many commands of a script are answered. No memory.
    pub fn answered(&self, s: ScriptNo) -> u32
        requires { IsScript self.now s.0 }
        ensures value { result ≡ answered_at self.now s.0 }
        ensures within { result ≤ length (commands_at self.now s.0) }
    {
        self.turns[s.0 as usize - 1].answered
    }

    /// The next command of a script; `None` where each is answered. No memory.
    pub fn command(&self, s: ScriptNo) -> Option<&Command>
        requires { IsScript self.now s.0 }
        ensures { option_copied result ≡
            slice_get (commands_at self.now s.0) (answered_at self.now s.0) }
    {
        let at = self.answered(s) as usize;
        self.commands(s).get(at)
    }

    /// Whether each command of a script is answered. No memory.
    pub fn is_answered_whole(&self, s: ScriptNo) -> bool
        requires { IsScript self.now s.0 }
        ensures { IsTrue result ↔ (answered_at self.now s.0 ≡ length (commands_at self.now s.0)) }
    {
        self.answered(s) as usize == self.commands(s).len()
    }

    /// The transaction that a script has open. No memory.
    pub fn open(&self, s: ScriptNo) -> Option<Open>
        requires { IsScript self.now s.0 }
        ensures { result ≡ (turn_at self.now s.0).transaction }
    {
        self.turns[s.0 as usize - 1].transaction
    }

    /// A transaction begins in a script. No memory.
    pub fn enter(&mut self, s: ScriptNo, txn: TxnNo, single: bool)
        requires script { IsScript self.old s.0 }
        requires closed { (turn_at self.old s.0).transaction ≡ None }
        ensures { self.new ≡ entered self.old s.0 (record { txn = txn; single = single }) }
    {
        let turn = &mut self.turns[s.0 as usize - 1];
        turn.transaction = Some(Open { txn, single });
    }

    /// The open transaction of a script ends. No memory.
    pub fn leave(&mut self, s: ScriptNo)
        requires script { IsScript self.old s.0 }
        requires inside { IsSome (turn_at self.old s.0).transaction }
        ensures { self.new ≡ left self.old s.0 }
    {
        let turn = &mut self.turns[s.0 as usize - 1];
        turn.transaction = None;
    }

    /// The next command of a script is answered, and the numbers that were kept for it are kept no more. No memory.
    pub fn answer(&mut self, s: ScriptNo)
        requires script { IsScript self.old s.0 }
        requires some_left { HasNext self.old s.0 }
        ensures { self.new ≡ answered_one self.old s.0 }
    {
        let turn = &mut self.turns[s.0 as usize - 1];
        turn.answered += 1;
        turn.numbers = None;
    }

    /// The next command of a script goes out as this task. No memory.
    pub fn take_out(&mut self, s: ScriptNo, out: Out)
        requires script { IsScript self.old s.0 }
        requires stays { (turn_at self.old s.0).out ≡ None }
        requires some_left { HasNext self.old s.0 }
        ensures { self.new ≡ gone_out self.old s.0 out }
    {
        let turn = &mut self.turns[s.0 as usize - 1];
        turn.out = Some(out);
    }

    /// The task of a script that is out. No memory.
    pub fn out(&self, s: ScriptNo) -> Option<&Out>
        requires { IsScript self.now s.0 }
        ensures { option_copied result ≡ (turn_at self.now s.0).out }
    {
        self.turns[s.0 as usize - 1].out.as_ref()
    }

    /// The task of a script is out no more. No memory.
    pub fn drop_out(&mut self, s: ScriptNo) -> Out
        requires script { IsScript self.old s.0 }
        requires is_out { IsSome (turn_at self.old s.0).out }
        ensures task { (turn_at self.old s.0).out ≡ Some result }
        ensures turn { self.new ≡ dropped self.old s.0 }
    {
        let turn = &mut self.turns[s.0 as usize - 1];
        turn.out.take().unwrap()
    }

    /// The task of a script is out no more, and its numbers are kept for the command, which is the script's next. No memory.
    pub fn give_back(&mut self, s: ScriptNo) -> Out
        requires script { IsScript self.old s.0 }
        requires is_out { IsSome (turn_at self.old s.0).out }
        ensures task { (turn_at self.old s.0).out ≡ Some result }
        ensures turn { self.new ≡ given_back self.old s.0 result.numbers }
    {
        let turn = &mut self.turns[s.0 as usize - 1];
        let out = turn.out.take().unwrap();
        turn.numbers = Some(out.numbers);
        out
    }

    /// The script that has this task out. No memory.
    pub fn find(&self, task: TaskId) -> Option<ScriptNo>
        ensures { result ≡ script_of self.now task }
    {
        match place_of(&self.turns, task) {
            Some(place) => Some(ScriptNo(place as u32 + 1)),
            None => None,
        }
    }

    /// The numbers that are kept for the next command of a script. No memory.
    pub fn numbers(&self, s: ScriptNo) -> Option<Numbers>
        requires { IsScript self.now s.0 }
        ensures { result ≡ (turn_at self.now s.0).numbers }
    {
        self.turns[s.0 as usize - 1].numbers
    }

    /// Adds a command at the end of a script.
    pub fn push(&mut self, alloc: Global, s: ScriptNo, command: Command) -> Result<(), Memory>
        requires script { IsScript self.old s.0 }
        requires few { length (commands_at self.old s.0) < 4294967295 }
        ensures ok { OnOk result (self.new ≡ with_command self.old s.0 command) }
        ensures err { OnErr result (self.new ≡ self.old) }
    {
        add_command(&mut self.job, alloc, s.0 as usize - 1, command)
    }

    /// How the next command of a script stands. No memory.
    pub fn pending(&self, s: ScriptNo) -> Pending
        requires { IsScript self.now s.0 }
        ensures { result ≡ pending_in (turn_at self.now s.0) (length (commands_at self.now s.0)) }
    {
        if self.is_answered_whole(s) {
            return Pending::Nothing;
        }
        match self.out(s) {
            Some(out) => Pending::Out { task: out.task },
            None => Pending::Next,
        }
    }

    // The commands of a script.
    fn commands(&self, s: ScriptNo) -> &[Command]
        requires { IsScript self.now s.0 }
        ensures { result.now ≡ commands_at self.now s.0 }
    {
        self.job.scripts.as_slice()[s.0 as usize - 1]
            .commands
            .as_slice()
    }

    // Whether one script stands before another.
    fn is_before(&self, a: ScriptNo, b: ScriptNo) -> bool
        requires first { IsScript self.now a.0 }
        requires second { IsScript self.now b.0 }
        ensures { IsTrue result ↔ IsBefore self.now a.0 b.0 }
    {
        let first = self.answered(a);
        let second = self.answered(b);
        first < second || (first == second && a.0 < b.0)
    }

    // Whether a script stands behind the last one.
    fn is_behind(&self, last: Option<ScriptNo>, script: ScriptNo) -> bool
        requires last { IfSome last (λ s. IsScript self.now s.0) }
        requires script { IsScript self.now script.0 }
        ensures { IsTrue result ↔ IsBehind self.now last script.0 }
    {
        match last {
            Some(last) => self.is_before(last, script),
            None => true,
        }
    }

    // The first of the scripts up to this one that stand behind the last, where `best` is the first of those before it.
    fn better(
        &self,
        last: Option<ScriptNo>,
        best: Option<ScriptNo>,
        script: ScriptNo,
    ) -> Option<ScriptNo>
        requires last { IfSome last (λ s. IsScript self.now s.0) }
        requires script { IsScript self.now script.0 }
        requires best { IsFirstUpTo self.now last (script.0 - 1) best }
        ensures { IsFirstUpTo self.now last script.0 result }
    {
        if !self.is_behind(last, script) {
            return best;
        }
        match best {
            Some(first) => {
                if self.is_before(script, first) {
                    Some(script)
                } else {
                    Some(first)
                }
            }
            None => Some(script),
        }
    }
}

// Whether this task is out.
fn has_task(out: &Option<Out>, task: TaskId) -> bool
    ensures { result ≡ is_task task out.now }
{
    match out {
        Some(out) => out.task.0 == task.0,
        None => false,
    }
}

// The place of the turn that has this task out, counted from 0.
fn place_of(turns: &[Turn], task: TaskId) -> Option<usize>
    ensures place { result ≡ position (λ (turn : Turn). is_task task turn.out) turns.now }
    ensures within { IfSome result (λ i. i < length turns.now) }
{
    turns.iter().position(|turn| has_task(&turn.out, task))
}
