// Why bytes were not read: `AgentFault` and `CondFault`, made of the refusals of the stages.
ghost use Rattle.std.specs.Prelude.{◌≡◌};
ghost use Rattle.golog_file.specs.declared.fault.AgentFault.TheVariants.{Refused, Memory};
ghost use Rattle.golog_file.specs.Faults.{fault_of_form, fault_of_theory, fault_of_check, cond_fault_of_form, cond_fault_of_theory, cond_fault_of_check};

use golog_base::NoMemory;
use golog_check::CheckFault;
use golog_form::FormFault;
use golog_theory::TheoryFault;
use thiserror::Error;

/// Why the bytes of a file were not read as an agent.
#[derive(Debug, Drop, Error)]
pub enum AgentFault {
    /// The file is refused, with the code and its place.
    #[error("refused agent {code} at {at}")]
    Refused { code: u8, at: u32 },
    /// Memory ran out.
    #[error("memory ran out")]
    Memory,
}

impl From<NoMemory> for AgentFault {
    ghost from_gives = { λ _ e. e ≡ Memory };

    fn from(_error: NoMemory) -> AgentFault {
        AgentFault::Memory
    }
}

impl From<FormFault> for AgentFault {
    ghost from_gives = { λ fault e. e ≡ fault_of_form fault };

    fn from(fault: FormFault) -> AgentFault {
        match fault {
            FormFault::Refused { why, at } => AgentFault::Refused { code: why, at },
            FormFault::Memory => AgentFault::Memory,
        }
    }
}

impl From<TheoryFault> for AgentFault {
    ghost from_gives = { λ fault e. e ≡ fault_of_theory fault };

    fn from(fault: TheoryFault) -> AgentFault {
        match fault {
            TheoryFault::Refused { code, at } => AgentFault::Refused { code, at },
            TheoryFault::Memory => AgentFault::Memory,
        }
    }
}

impl From<CheckFault> for AgentFault {
    ghost from_gives = { λ fault e. e ≡ fault_of_check fault };

    fn from(fault: CheckFault) -> AgentFault {
        match fault {
            CheckFault::Refused { code, at } => AgentFault::Refused { code, at },
            CheckFault::Memory => AgentFault::Memory,
        }
    }
}

/// Why bytes were not read as a condition.
#[derive(Debug, Drop, Error)]
pub enum CondFault {
    /// The condition is refused, with the code and its place.
    #[error("refused condition {code} at {at}")]
    Refused { code: u8, at: u32 },
    /// Memory ran out.
    #[error("memory ran out")]
    Memory,
}

impl From<FormFault> for CondFault {
    ghost from_gives = { λ fault e. e ≡ cond_fault_of_form fault };

    fn from(fault: FormFault) -> CondFault {
        match fault {
            FormFault::Refused { why, at } => CondFault::Refused { code: why, at },
            FormFault::Memory => CondFault::Memory,
        }
    }
}

impl From<TheoryFault> for CondFault {
    ghost from_gives = { λ fault e. e ≡ cond_fault_of_theory fault };

    fn from(fault: TheoryFault) -> CondFault {
        match fault {
            TheoryFault::Refused { code, at } => CondFault::Refused { code, at },
            TheoryFault::Memory => CondFault::Memory,
        }
    }
}

impl From<CheckFault> for CondFault {
    ghost from_gives = { λ fault e. e ≡ cond_fault_of_check fault };

    fn from(fault: CheckFault) -> CondFault {
        match fault {
            CheckFault::Refused { code, at } => CondFault::Refused { code, at },
            CheckFault::Memory => CondFault::Memory,
        }
    }
}
