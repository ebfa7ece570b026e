//! Tests of the turns.

use r4_base::{Memory, NodeId, Oid, ScriptNo, TaskId, TxnNo};
use r4_cell::{Cells, Fresh, Root};
use r4_content::{Command, Seen};
use r4_script::{Commands, Job, Script, Scripts};
use r4_turns::{Nodes, Numbers, Out, Pending, Scope, Turns};
use std::alloc::Global;
use std::process::Abort;
use std::sync::Arc;
use std::test::Fail;

// A script of so many commands.
fn script_of(alloc: Global, commands: u32) -> Result<Script, Memory> {
    let mut items = Vec::new(alloc);
    for _ in 0..commands {
        items.push(Command::Commit)?;
    }
    Ok(Script {
        commands: Commands::from_vec(items),
    })
}

// So many scripts of so many commands each.
fn job_of(alloc: Global, scripts: u32, commands: u32) -> Result<Job, Memory> {
    let mut all = Vec::new(alloc);
    for _ in 0..scripts {
        all.push(script_of(alloc, commands)?)?;
    }
    Ok(Job {
        scripts: Scripts::from_vec(all),
    })
}

// Answers the next command of a script that has one.
fn answer_next(turns: &mut Turns, s: ScriptNo) {
    if s.0 == 0 || s.0 > turns.count() || turns.is_answered_whole(s) {
        return;
    }
    let _answered = turns.answered(s);
    turns.answer(s);
}

// The script behind one of the job's.
fn behind(turns: &Turns, last: Option<ScriptNo>) -> Option<ScriptNo> {
    match last {
        None => turns.next_behind(None),
        Some(s) => {
            if s.0 == 0 || s.0 > turns.count() {
                return None;
            }
            turns.next_behind(Some(s))
        }
    }
}

// How many commands of a script are answered in the table below.
fn progress(script: u32) -> u32 {
    (script % 64) * 7 % 5
}

#[test]
fn order_of_serving(rt: HostRuntime) -> Result<(), Fail> {
    let mut turns = Turns::new(rt.alloc(), job_of(rt.alloc(), 64, 4)?)?;
    for script in 1..65u32 {
        for _ in 0..progress(script) {
            answer_next(&mut turns, ScriptNo(script));
        }
    }
    let mut last = None;
    for answered in 0..5u32 {
        for script in 1..65u32 {
            if progress(script) == answered {
                last = behind(&turns, last);
                assert_eq!(rt; last.map(|s| s.0), Some(script));
            }
        }
    }
    assert_eq!(rt; behind(&turns, last).map(|s| s.0), None);
    Ok(())
}

// A task that is out.
fn out_of(alloc: Global, task: u32) -> Result<Out, Memory> {
    Ok(Out {
        task: TaskId(task),
        txn: TxnNo(1),
        reads: Cells::new(alloc),
        writes: Cells::new(alloc),
        pins: Nodes::from_vec(Vec::new(alloc)),
        seen: Arc::new(
            alloc,
            Seen {
                parts: Vec::new(alloc),
            },
        )?,
        scope: Scope {
            root: Root {
                id: NodeId(22),
                height: 2,
            },
            in_leaves: true,
            in_extents: false,
            most: 0,
        },
        numbers: Numbers {
            oid: Oid(42),
            fresh: Fresh {
                next: 9223372036854775808,
                end: 9223372036854775809,
            },
        },
        cells: 0,
        claims: 0,
    })
}

// What stood of a script while its next command was out and when it was answered.
#[derive(Clone, Copy, Debug, PartialEq, Eq)]
struct Stood {
    pending: [Pending; 3],
    found: Option<ScriptNo>,
    keeps_numbers: bool,
    has_numbers: bool,
    more_answered: u32,
}

// The next command of a script goes out, comes back, goes out again and is answered.
fn out_and_back(rt: &impl Abort, turns: &mut Turns, s: ScriptNo, out: Out) -> Stood {
    assert!(rt; s.0 > 0 && s.0 <= turns.count());
    assert!(rt; turns.out(s).is_none());
    assert!(rt; !turns.is_answered_whole(s));
    let answered = turns.answered(s);
    let task = out.task;
    turns.take_out(s, out);
    let first = turns.pending(s);
    let found = turns.find(task);
    let back = turns.give_back(s);
    let second = turns.pending(s);
    let oid = back.numbers.oid;
    let keeps_numbers = turns.numbers(s).map(|kept| kept.oid) == Some(oid);
    turns.take_out(s, back);
    let _out = turns.drop_out(s);
    turns.answer(s);
    Stood {
        pending: [first, second, turns.pending(s)],
        found,
        keeps_numbers,
        has_numbers: turns.numbers(s).is_some(),
        more_answered: turns.answered(s).wrapping_sub(answered),
    }
}

#[test]
fn a_pushed_command(rt: HostRuntime) -> Result<(), Fail> {
    let mut turns = Turns::new(rt.alloc(), job_of(rt.alloc(), 2, 0)?)?;
    let second = ScriptNo(2);
    assert_eq!(rt; turns.count(), 2);
    assert_eq!(rt; turns.pending(second), Pending::Nothing);
    turns.push(rt.alloc(), second, Command::Commit)?;
    assert_eq!(rt; turns.pending(second), Pending::Next);
    turns.enter(second, TxnNo(1), true);
    assert_eq!(rt; turns.open(second).map(|open| open.txn.0), Some(1));
    let stood = out_and_back(&rt, &mut turns, second, out_of(rt.alloc(), 7)?);
    let wanted = Stood {
        pending: [
            Pending::Out { task: TaskId(7) },
            Pending::Next,
            Pending::Nothing,
        ],
        found: Some(second),
        keeps_numbers: true,
        has_numbers: false,
        more_answered: 1,
    };
    assert_eq!(rt; stood, wanted);
    Ok(())
}
