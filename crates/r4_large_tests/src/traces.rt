//! A script, line by line, and what its run tells of each line.

use std::alloc::Global;
use std::test::Fail;

/// A line of a script and its reply: for a command that is refused, `refused` and why; for `begin`,
/// `end` and `commit` nothing.
pub type Line = (&'static str, &'static str);

/// A text of scripts of one script, and what its run by one thread prints: each transaction is acknowledged before the
/// next one begins, and the last one is committed where the script does not ask for it.
#[derive(Drop)]
pub struct Told {
    pub text: String,
    pub trace: String,
    lines: u32,
    transactions: u32,
    atoms: u32,
    is_open: bool,
    is_left: bool,
}

impl Told {
    /// A script without lines.
    pub fn new(alloc: Global) -> Result<Told, Fail> {
        Ok(Told {
            text: String::from_str(alloc, "script\n")?,
            trace: String::from_str(alloc, "")?,
            lines: 0,
            transactions: 0,
            atoms: 0,
            is_open: false,
            is_left: false,
        })
    }

    /// A script of these lines.
    pub fn of(alloc: Global, lines: &[Line]) -> Result<Told, Fail> {
        let mut told = Told::new(alloc)?;
        for (line, reply) in lines {
            told.add(alloc, line, reply)?;
        }
        told.leave(alloc)?;
        Ok(told)
    }

    /// Puts a line behind the others.
    pub fn add(&mut self, alloc: Global, line: &str, reply: &str) -> Result<(), Fail> {
        self.text.push_str(line)?;
        self.text.push_str("\n")?;
        self.lines = self.lines.saturating_add(1);
        if line == "begin" {
            return self.begin(alloc);
        }
        if line == "end" {
            return self.end(alloc);
        }
        if line == "commit" {
            return self.commit(alloc);
        }
        self.command(alloc, reply)
    }

    /// Ends the script: what is not committed yet is committed now.
    pub fn leave(&mut self, alloc: Global) -> Result<(), Fail> {
        if self.is_left {
            self.settle(alloc)?;
        }
        Ok(())
    }

    // A transaction begins.
    fn begin(&mut self, alloc: Global) -> Result<(), Fail> {
        self.transactions = self.transactions.saturating_add(1);
        self.is_open = true;
        let number = self.transactions;
        self.tell(format!(in alloc; "begin t{number} s1\n")?.as_str())
    }

    // It ends.
    fn end(&mut self, alloc: Global) -> Result<(), Fail> {
        self.is_open = false;
        self.is_left = true;
        let number = self.transactions;
        self.tell(format!(in alloc; "ended t{number}\n")?.as_str())
    }

    // It is committed, and acknowledged.
    fn commit(&mut self, alloc: Global) -> Result<(), Fail> {
        if !self.is_left {
            return Ok(());
        }
        self.settle(alloc)?;
        let number = self.transactions;
        self.tell(format!(in alloc; "acked s1 t{number}\n")?.as_str())
    }

    // Its atom is committed.
    fn settle(&mut self, alloc: Global) -> Result<(), Fail> {
        self.is_left = false;
        self.atoms = self.atoms.saturating_add(1);
        let number = self.atoms;
        self.tell(format!(in alloc; "sealed a{number}\ncommitted a{number}\n")?.as_str())
    }

    // A command is answered, in a transaction of its own where none is open.
    fn command(&mut self, alloc: Global, reply: &str) -> Result<(), Fail> {
        if let Some(why) = reply.strip_prefix("refused ") {
            return self.refuse(alloc, why);
        }
        if self.is_open {
            return self.answer(alloc, reply);
        }
        self.begin(alloc)?;
        self.answer(alloc, reply)?;
        self.end(alloc)
    }

    // A command of the transaction is answered.
    fn answer(&mut self, alloc: Global, reply: &str) -> Result<(), Fail> {
        let (number, line) = (self.transactions, self.lines);
        self.tell(format!(in alloc; "done t{number} s1 c{line} {reply}\n")?.as_str())
    }

    // A command is refused.
    fn refuse(&mut self, alloc: Global, why: &str) -> Result<(), Fail> {
        let number = if self.is_open { self.transactions } else { 0 };
        let line = self.lines;
        self.tell(format!(in alloc; "refused t{number} s1 c{line} {why}\n")?.as_str())
    }

    // Puts lines behind the trace.
    fn tell(&mut self, lines: &str) -> Result<(), Fail> {
        self.trace.push_str(lines)?;
        Ok(())
    }
}
