//! Calls of the tables of a run, as often as the words say, for the measures of bench/tables.sh.
//!
//! | words | what is done |
//! |---|---|
//! | `atoms N` | N transactions are begun, each captures a node, and all are fused |
//! | `space N CALLS` | N atoms take turns at as many charges, and then at as many deferrals |
#![tactic(auto)]

mod atoms;
mod fault;
mod space;

use atoms::fuse_all;
use fault::Fault;
use space::{Free, charge_all};
use std::alloc::Global;
use std::env;
use std::process::ExitCode;

fn main(rt: HostRuntime) -> ExitCode {
    let Ok(words) = command_words(&rt) else {
        return ExitCode::from(2);
    };
    match done(rt.alloc(), words.as_slice()) {
        Ok(line) => {
            let _ = println!(rt; "{line}");
            ExitCode::from(0)
        }
        Err(Fault::Words) => ExitCode::from(2),
        Err(Fault::Unfit) => ExitCode::from(1),
        Err(Fault::Memory) => ExitCode::from(9),
    }
}

// The words of the command line, without the program's own name.
fn command_words(rt: &HostRuntime) -> Result<Vec<String>, Fault> {
    let mut words = Vec::new(rt.alloc());
    let Ok(all) = env::args(rt) else {
        return Err(Fault::Words);
    };
    for word in all.skip(1) {
        words.push(word)?;
    }
    Ok(words)
}

// Does what the words ask for: the line that tells it.
fn done(alloc: Global, words: &[String]) -> Result<String, Fault> {
    match words {
        [what, count] if what.as_str() == "atoms" => {
            let count = number(count)?;
            let last = fuse_all(alloc, count)?;
            Ok(format!(in alloc; "atoms {count}: the last is a{}", last.0)?)
        }
        [what, atoms, calls] if what.as_str() == "space" => {
            let (atoms, calls) = (number(atoms)?, number(calls)?);
            let Free { before, after } = charge_all(alloc, atoms, calls)?;
            Ok(format!(in alloc; "space {atoms} {calls}: {before} free, then {after}")?)
        }
        _ => Err(Fault::Words),
    }
}

// The number of a word.
fn number(word: &String) -> Result<u32, Fault> {
    match word.as_str().parse::<u32>() {
        Ok(number) => Ok(number),
        Err(_) => Err(Fault::Words),
    }
}
