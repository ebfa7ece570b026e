//! Jobs: scripts of commands.

ghost use Rattle.std.specs.Prelude.{◌≡◌};

use r4_content::Command;
use std::marker::Model;

/// Commands in their order, which contracts see as their list.
#[derive(Drop)]
pub struct Commands {
    items: Vec<Command>,
}

impl Model for Commands {
    ghost use Rattle.std.specs.Prelude.{List};
    ghost use Rattle.r4_content.specs.declared.command.Command.{Command};

    ghost Value = { List Command };

    ghost view = { λ c. c.items.items };
}

impl Commands {
    /// These commands, which are moved and not copied.
    pub fn from_vec(items: Vec<Command>) -> Commands
        ensures { result ≡ items.items }
    {
        Commands { items }
    }

    /// The commands, to be read.
    pub fn as_slice(&self) -> &[Command]
        ensures { result.now ≡ self.now }
    {
        self.items.as_slice()
    }

    /// The commands, which are moved and not copied.
    pub fn into_vec(self) -> Vec<Command>
        ensures { result.items ≡ self }
    {
        self.items
    }
}

/// A script: commands that are done one after the other.
#[derive(Drop)]
pub struct Script {
    pub commands: Commands,
}

/// Scripts in their order, which contracts see as their list.
#[derive(Drop)]
pub struct Scripts {
    items: Vec<Script>,
}

impl Model for Scripts {
    ghost use Rattle.std.specs.Prelude.{List};
    ghost use Rattle.r4_script.specs.declared.job.Script.{Script};

    ghost Value = { List Script };

    ghost view = { λ s. s.items.items };
}

impl Scripts {
    /// These scripts, which are moved and not copied.
    pub fn from_vec(items: Vec<Script>) -> Scripts
        ensures { result ≡ items.items }
    {
        Scripts { items }
    }

    /// The scripts, to be read.
    pub fn as_slice(&self) -> &[Script]
        ensures { result.now ≡ self.now }
    {
        self.items.as_slice()
    }

    /// The scripts, which are moved and not copied.
    pub fn into_vec(self) -> Vec<Script>
        ensures { result.items ≡ self }
    {
        self.items
    }
}

/// What a text asks for: scripts that may be done beside one another.
#[derive(Drop)]
pub struct Job {
    pub scripts: Scripts,
}
