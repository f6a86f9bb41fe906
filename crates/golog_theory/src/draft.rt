// `Draft`, a theory that is being read, with what is looked up while it is; `Entry`, what an item
// adds to it.
ghost use Rattle.std.specs.Prelude.{◌≡◌, ◌||◌, IfOk, OnOk};
ghost use Rattle.std.specs.BTreeSet.{contains};
ghost use Rattle.golog_theory.specs.Draft.{IsDraft, IsDraftOf};
ghost use Rattle.golog_theory.specs.Effects.{has_poss};
ghost use Rattle.golog_theory.specs.Fluents.{is_started};
ghost use Rattle.golog_theory.specs.declared.started.Ground.{Ground};
ghost use Rattle.golog_theory.specs.Index.{IsIndexOf};
ghost use Rattle.golog_theory.specs.Items.{built_in};
ghost use Rattle.golog_theory.specs.Started.{ground_cmp, starts_at};

use crate::built_in::built_in;
use crate::index::{Index, Named};
use crate::indexed::Indexed;
use crate::started::Ground;
use golog_base::NoMemory;
use golog_tree::{
    DraftAction, DraftArg, DraftCause, DraftDevice, DraftFluent, DraftPoss, DraftSense, DraftSort,
    DraftStart, DraftTheory,
};
use std::alloc::Global;
use std::collections::BTreeSet;

/// A theory that is being read, and what is looked up while it is.
#[derive(Drop)]
pub struct Draft {
    alloc: Global,
    theory: DraftTheory,
    index: Index,
    /// The actions that have a precondition.
    restricted: BTreeSet<usize>,
    /// The ground fluents that have a start value of their own.
    started: BTreeSet<Ground>,
}

impl Draft {
    /// What is built in.
    pub fn built_in(alloc: Global) -> Result<Draft, NoMemory>
        ensures { IfOk result (λ draft. IsDraftOf draft built_in) }
    {
        let theory = built_in(alloc)?;
        match Index::of(alloc, &theory) {
            Ok(index) => Ok(Draft::begun(alloc, theory, index)),
            Err(NoMemory) => {
                drop(theory);
                Err(NoMemory)
            }
        }
    }

    /// What is built in, with its index.
    fn begun(alloc: Global, theory: DraftTheory, index: Index) -> Draft
        requires same { theory ≡ built_in }
        requires index { IsIndexOf index theory }
        ensures { IsDraftOf result built_in }
    {
        Draft {
            alloc,
            theory,
            index,
            restricted: BTreeSet::new(alloc),
            started: BTreeSet::new(alloc),
        }
    }

    /// The theory so far.
    pub fn theory(&self) -> &DraftTheory
        ensures { result.now ≡ self.now.theory }
    {
        &self.theory
    }

    /// The theory so far, with its index.
    pub fn indexed(&self) -> Indexed<'_>
        requires { IsDraft self.now }
        ensures { result ≡ self.now.theory }
    {
        Indexed::new(&self.theory, &self.index)
    }

    /// The theory.
    pub fn into_theory(self) -> DraftTheory
        ensures { result ≡ self.theory }
    {
        let Draft { theory, .. } = self;
        theory
    }

    /// Whether a precondition of the action with the number stands already.
    pub fn has_poss(&self, action: usize) -> bool
        requires { IsDraft self.now }
        ensures { result ≡ has_poss self.now.theory.poss action }
    {
        self.restricted.contains(&action)
    }

    /// Whether the fluent has a start value at these constants already.
    pub fn is_started(&self, fluent: u32, args: &[DraftArg]) -> Result<bool, NoMemory>
        requires { IsDraft self.now }
        ensures { IfOk result (λ started. started ≡ is_started self.now.theory fluent args.now) }
    {
        let cell = Ground::of(self.alloc, fluent, args)?;
        Ok(self.started.contains(&cell))
    }
}

/// What an item of an agent file adds to a theory.
pub trait Entry {
    ghost use Rattle.std.specs.Prelude.{OnOk};
    ghost use Rattle.golog_tree.specs.declared.draft.DraftTheory.{DraftTheory};
    ghost use Rattle.golog_theory.specs.Draft.{IsDraft, IsDraftOf};

    /// The theory with it.
    ghost added: { DraftTheory → Self → DraftTheory };

    /// Adds it to the draft.
    fn add_to(self, draft: &mut Draft) -> Result<(), NoMemory>
        requires { IsDraft draft.old }
        ensures { OnOk result (IsDraftOf draft.new (added draft.old.theory self)) };
}

impl Entry for DraftSort {
    ghost use Rattle.std.specs.Prelude.{[], ◌∷◌, ◌++◌};

    ghost added = { λ theory entry. record theory { sorts = theory.sorts ++ entry ∷ [] } };

    fn add_to(self, draft: &mut Draft) -> Result<(), NoMemory> {
        let number = draft.theory.sorts.len();
        draft.index.add_sort(draft.alloc, &self, number)?;
        draft.theory.sorts.push(self)?;
        Ok(())
    }
}

impl Entry for DraftDevice {
    ghost use Rattle.std.specs.Prelude.{[], ◌∷◌, ◌++◌};

    ghost added = { λ theory entry. record theory { devices = theory.devices ++ entry ∷ [] } };

    fn add_to(self, draft: &mut Draft) -> Result<(), NoMemory> {
        let number = draft.theory.devices.len();
        draft.index.devices.add(draft.alloc, self.name(), number)?;
        draft.theory.devices.push(self)?;
        Ok(())
    }
}

impl Entry for DraftFluent {
    ghost use Rattle.std.specs.Prelude.{[], ◌∷◌, ◌++◌};

    ghost added = { λ theory entry. record theory { fluents = theory.fluents ++ entry ∷ [] } };

    fn add_to(self, draft: &mut Draft) -> Result<(), NoMemory> {
        let number = draft.theory.fluents.len();
        draft.index.fluents.add(draft.alloc, self.name(), number)?;
        draft.theory.fluents.push(self)?;
        Ok(())
    }
}

impl Entry for DraftAction {
    ghost use Rattle.std.specs.Prelude.{[], ◌∷◌, ◌++◌};

    ghost added = { λ theory entry. record theory { actions = theory.actions ++ entry ∷ [] } };

    fn add_to(self, draft: &mut Draft) -> Result<(), NoMemory> {
        let number = draft.theory.actions.len();
        draft.index.actions.add(draft.alloc, self.name(), number)?;
        draft.theory.actions.push(self)?;
        Ok(())
    }
}

impl Entry for DraftPoss {
    ghost use Rattle.std.specs.Prelude.{[], ◌∷◌, ◌++◌};

    ghost added = { λ theory entry. record theory { poss = theory.poss ++ entry ∷ [] } };

    fn add_to(self, draft: &mut Draft) -> Result<(), NoMemory> {
        let action = self.action as usize;
        draft.theory.poss.push(self)?;
        draft.restricted.insert(action)?;
        Ok(())
    }
}

impl Entry for DraftCause {
    ghost use Rattle.std.specs.Prelude.{[], ◌∷◌, ◌++◌};

    ghost added = { λ theory entry. record theory { causes = theory.causes ++ entry ∷ [] } };

    fn add_to(self, draft: &mut Draft) -> Result<(), NoMemory> {
        draft.theory.causes.push(self)?;
        Ok(())
    }
}

impl Entry for DraftSense {
    ghost use Rattle.std.specs.Prelude.{[], ◌∷◌, ◌++◌};

    ghost added = { λ theory entry. record theory { senses = theory.senses ++ entry ∷ [] } };

    fn add_to(self, draft: &mut Draft) -> Result<(), NoMemory> {
        draft.theory.senses.push(self)?;
        Ok(())
    }
}

impl Entry for DraftStart {
    ghost use Rattle.std.specs.Prelude.{[], ◌∷◌, ◌++◌};

    ghost added = { λ theory entry. record theory { starts = theory.starts ++ entry ∷ [] } };

    fn add_to(self, draft: &mut Draft) -> Result<(), NoMemory> {
        add_started(&mut draft.started, draft.alloc, &self)?;
        draft.theory.starts.push(self)?;
        Ok(())
    }
}

/// Adds the ground fluent of a start value, where it is that of one.
#[tactic(auto, using(crate::proofs::Starting::adding))]
fn add_started(
    started: &mut BTreeSet<Ground>,
    alloc: Global,
    start: &DraftStart,
) -> Result<(), NoMemory>
    ensures { OnOk result ((cell : Ground) → contains ground_cmp started.new cell
        ≡ (contains ground_cmp started.old cell || starts_at cell start.now)) }
{
    match start {
        DraftStart::Each { .. } => Ok(()),
        DraftStart::One { fluent, args, .. } => {
            let cell = Ground::of(alloc, *fluent, args.as_slice())?;
            started.insert(cell)?;
            Ok(())
        }
    }
}
