//! What is kept of a ground action: its device, who may post it, the fluent that its result tells,
//! how many values that has, whether the program goes on only after the result; `DEVICES`.
ghost use Rattle.std.specs.Prelude.{◌≡◌, ◌<◌, IfOk, false, nat_lt};
ghost use Rattle.std.specs.Option.{option_map_or};
ghost use Rattle.golog_tree.specs.Ground.{sort_size as size_of_sort};
ghost use Rattle.golog_semantics.specs.Values.{fluent_sort};
ghost use Rattle.golog_semantics.specs.Journal.{device_of as carrier, may_post as may_be_posted, fluent_sensed, is_sensing as does_sense, is_held as holds, device_limit};
ghost use Rattle.golog_journal.specs.Agents.{ServesDevices};

use crate::table::action_facts;
use golog_base::NoMemory;
use golog_tree::Agent;
use std::alloc::Global;
use std::marker::Model;
use std::snapshot::Snapshot;

/// The most devices of an agent.
pub const DEVICES: usize = 16;

/// What is kept of a ground action.
#[derive(Clone, Copy)]
pub(crate) struct ActionFact {
    /// The device that carries it out.
    pub(crate) device: Option<u8>,
    /// Whether each device may post it.
    pub(crate) posters: [bool; DEVICES],
    /// The ground fluent whose value its result tells.
    pub(crate) sensed: Option<u32>,
    /// How many values that fluent has.
    pub(crate) values: u32,
    /// Whether the program goes on only after its result.
    pub(crate) held: bool,
}

/// What is so of an action that the agent does not have.
const NO_ACTION: ActionFact = ActionFact {
    device: None,
    posters: [false; DEVICES],
    sensed: None,
    values: 0,
    held: false,
};

/// The facts of each ground action. Contracts see them as the agent.
#[derive(Drop)]
pub struct AgentFacts {
    agent: Snapshot<Agent>,
    actions: Vec<ActionFact>,
}

impl Model for AgentFacts {
    ghost use Rattle.golog_tree.specs.declared.agent.Agent.{Agent};
    ghost use Rattle.golog_journal.specs.Facts.{AreAllFacts};
    ghost use Rattle.std.specs.Coded.{codes};
    ghost use Rattle.golog_tree.specs.contracts.cond.Cond as cond;
    ghost use Rattle.golog_tree.specs.contracts.cond.Term as term;
    ghost use Rattle.golog_tree.specs.contracts.prog.Prog as prog;
    ghost use Rattle.golog_tree.specs.contracts.prog.Way as way;

    ghost Value = { Agent };

    ghost coded = { Prim.hlevel (codes, cond.the_row.coded, term.the_row.coded, prog.the_row.coded, way.the_row.coded) };

    ghost view = { λ facts. facts.agent.value };

    ghost invariant = { λ facts. AreAllFacts facts.agent.value facts.actions.items };
}

impl AgentFacts {
    ghost use Rattle.golog_journal.specs.Facts.{IsFactOf};

    /// The facts of the agent's actions.
    pub fn of(alloc: Global, agent: &Agent) -> Result<AgentFacts, NoMemory>
        requires { ServesDevices agent.now }
        ensures { IfOk result (λ facts. facts ≡ agent.now) }
    {
        let actions = action_facts(alloc, agent)?;
        Ok(AgentFacts {
            agent: Snapshot::of(agent),
            actions,
        })
    }

    fn fact(&self, action: u32) -> ActionFact
        ensures { IsFactOf self.now action result }
    {
        match self.actions.get(action as usize) {
            Some(fact) => *fact,
            None => NO_ACTION,
        }
    }

    /// The device that carries the action out.
    pub fn device_of(&self, action: u32) -> Option<u8>
        ensures { result ≡ carrier self.now action }
    {
        self.fact(action).device
    }

    /// Whether the device may post the action.
    pub fn may_post(&self, device: u8, action: u32) -> bool
        requires { device < device_limit }
        ensures { result ≡ may_be_posted self.now device action }
    {
        self.fact(action).posters[device as usize]
    }

    /// The ground fluent whose value the action's result tells.
    pub fn sensed(&self, action: u32) -> Option<u32>
        ensures { result ≡ fluent_sensed self.now action }
    {
        self.fact(action).sensed
    }

    /// Whether a device answers the action with a value.
    pub fn is_sensing(&self, action: u32) -> bool
        ensures { result ≡ does_sense self.now action }
    {
        self.fact(action).sensed.is_some()
    }

    /// Whether the program goes on only after the action's result: it has one, which may not come later.
    pub fn is_held(&self, action: u32) -> bool
        ensures { result ≡ holds self.now action }
    {
        self.fact(action).held
    }

    /// Whether the value is one of the fluent that the action's result tells.
    pub fn is_value_for(&self, action: u32, value: u8) -> bool
        ensures { result ≡ option_map_or (λ fluent. nat_lt value (size_of_sort self.now (fluent_sort self.now fluent))) (fluent_sensed self.now action) false }
    {
        let fact = self.fact(action);
        fact.sensed.is_some() && u32::from(value) < fact.values
    }
}
