//! Scripts: what actors ask for, in order.

ghost use Rattle.std.specs.Prelude.{◌≡◌};

use fs_model::event::{Event, ReadType, WriteType};
use fs_model::label::Label;
use fs_model::numbers::{Actor, WorkerNo};
use fs_model::path::Path;
use std::marker::Model;

/// What a command does: one event, or several, each chosen by the replies so far.
#[derive(Debug, Clone, PartialEq, Eq, Drop)]
pub enum Verb {
    One(Event),
    /// Creates a file of the first `len` bytes of the generator `num`.
    CopyIn {
        label: Label,
        path: Path,
        kind: WriteType,
        worker: WorkerNo,
        num: u8,
        len: u64,
    },
    /// Reads a whole file.
    Cat {
        label: Label,
        path: Path,
        kind: ReadType,
        worker: WorkerNo,
    },
    /// Starts and registers a worker.
    Up {
        worker: WorkerNo,
    },
    /// Persists, pumps, beats and sweeps.
    Settle {
        label: Label,
    },
}

/// What an actor, 1 to 64, asks for.
#[derive(Debug, Clone, PartialEq, Eq, Drop)]
pub struct Command {
    pub actor: Actor,
    pub verb: Verb,
}

/// A list of commands. A contract sees it as that.
#[derive(Debug, Drop)]
pub struct Script {
    commands: Vec<Command>,
}

impl Model for Script {
    ghost use Rattle.std.specs.Prelude.{List};
    ghost use Rattle.script_text.specs.declared.script.Command.{Command};

    ghost Value = { List Command };

    ghost view = { λ s. s.commands.items };
}

impl Script {
    /// The script of these commands; takes no memory.
    pub fn from_vec(commands: Vec<Command>) -> Script
        ensures { result ≡ commands.items }
    {
        Script { commands }
    }

    /// The commands, in order.
    pub fn commands(&self) -> &[Command]
        ensures { result.now ≡ self.now }
    {
        self.commands.as_slice()
    }
}
