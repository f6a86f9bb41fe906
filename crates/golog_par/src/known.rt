// What has an agent that threads may share.
ghost use Rattle.std.specs.Prelude.{◌≡◌};

use golog_tree::Agent;

/// What has an agent. Code that hands an agent to threads takes it as this, so that their sharing it is a bound, and
/// not looked for where it is handed over.
pub trait Known: Sync {
    ghost use Rattle.golog_tree.specs.declared.agent.Agent.{Agent};

    ghost agent: { Self → Agent };

    /// The agent.
    fn get(&self) -> &Agent
        ensures { result.now ≡ agent self.now };
}

impl Known for Agent {
    ghost agent = { λ known. known };

    fn get(&self) -> &Agent {
        self
    }
}
