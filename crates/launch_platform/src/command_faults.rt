//! Which commands of a launch machine are to fail.
ghost use Rattle.std.specs.Prelude.{◌≡◌, IsErr};

use igvm_headers::Failed;
use std::marker::Model;

/// The commands of a launch machine, counted up to 2^64 - 1: those of given numbers fail.
#[derive(Drop)]
pub struct CommandFaults {
    failing: Vec<u64>,
    commands: u64,
}

impl Model for CommandFaults {
    ghost use Rattle.launch_platform.specs.FailingCommands.{FaultsView};

    ghost Value = { FaultsView };

    ghost view = { λ faults. record {
      failing = faults.failing.items;
      commands = faults.commands;
    } };
}

impl CommandFaults {
    ghost use Rattle.launch_platform.specs.FailingCommands.{IsCounted};

    /// Lets the commands of these numbers fail; the first is number 1.
    pub fn new(calls: Vec<u64>) -> CommandFaults
        ensures { result ≡ record { failing = calls.items; commands = 0 } }
    {
        CommandFaults {
            failing: calls,
            commands: 0,
        }
    }

    /// Counts a command, which fails where its number says so.
    pub fn command(&mut self) -> Result<(), Failed>
        ensures { IsCounted self.old self.new (IsErr result) }
    {
        if self.commands == u64::MAX {
            return Ok(());
        }
        self.commands += 1;
        if self.failing.contains(&self.commands) {
            return Err(Failed);
        }
        Ok(())
    }
}
