//! Why a script was not run to its end.

ghost use Rattle.std.specs.Prelude.{◌≡◌};
ghost use Rattle.dh_script.specs.declared.fault.RunFault.TheVariants.{Memory};
ghost use Rattle.dh_script.specs.declared.fault.ScriptFault.TheVariants.{Run, Unread};
ghost use Rattle.dh_script.specs.Faults.{script_fault_name};

use dh_ports::Stop;
use std::alloc::AllocError;
use thiserror::Error;

/// Why the lines of a script did not all run. The commands before the fault are done.
#[derive(Clone, Copy, Debug, PartialEq, Eq, Error)]
pub enum RunFault {
    #[error("out of memory in a line")]
    Memory,
    #[error("the writer failed or took no byte")]
    Write,
}

/// Why a script was not run to its end.
#[derive(Clone, Copy, Debug, PartialEq, Eq, Error)]
pub enum ScriptFault {
    /// Reading the script stopped. No line ran.
    #[error("{0}")]
    Unread(Stop),
    /// The script has more than 1,048,576 bytes. No line ran.
    #[error("too long")]
    TooLong,
    /// The script is not UTF-8. No line ran.
    #[error("not text")]
    NotText,
    /// The lines of the script did not all run. The commands before the fault are done.
    #[error("{0}")]
    Run(RunFault),
}

impl ScriptFault {
    /// The name that programs read.
    pub fn name(self) -> &'static str
        ensures { result.now ≡ script_fault_name self }
    {
        match self {
            ScriptFault::Unread(Stop::Read) => "Read",
            ScriptFault::Unread(Stop::TooManyTurns) => "TooManyTurns",
            ScriptFault::Unread(Stop::Memory) | ScriptFault::Run(RunFault::Memory) => "Memory",
            ScriptFault::TooLong => "TooLong",
            ScriptFault::NotText => "NotText",
            ScriptFault::Run(RunFault::Write) => "Write",
        }
    }
}

impl From<Stop> for ScriptFault {
    ghost from_gives = { λ stop fault. fault ≡ Unread stop };

    fn from(stop: Stop) -> ScriptFault {
        ScriptFault::Unread(stop)
    }
}

impl From<RunFault> for ScriptFault {
    ghost from_gives = { λ run fault. fault ≡ Run run };

    fn from(run: RunFault) -> ScriptFault {
        ScriptFault::Run(run)
    }
}

impl From<AllocError> for RunFault {
    ghost from_gives = { λ _ fault. fault ≡ Memory };

    fn from(_refused: AllocError) -> RunFault {
        RunFault::Memory
    }
}
