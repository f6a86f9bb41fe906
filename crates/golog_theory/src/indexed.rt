// A theory with its index, whole or as far as it is declared before a place, which contracts see as
// that theory, and what it declares under a name.
ghost use Rattle.std.specs.Prelude.{◌≡◌};
ghost use Rattle.std.specs.Option.{option_copied};
ghost use Rattle.golog_theory.specs.Names.{is_constant, is_taken, sort_no, device_no, fluent_no, action_no, fluent_arity, action_arity, is_posted, is_of_program, allows};
ghost use Rattle.golog_theory.specs.Before.{before};
ghost use Rattle.golog_theory.specs.Index.{IsIndexOf};

use crate::index::Index;
use crate::limits::BUILT_IN;
use crate::names::{Actions, is_reserved};
use crate::placed::items_before;
use golog_tree::{
    DraftAction, DraftCause, DraftDevice, DraftFluent, DraftSort, DraftTheory, Place,
};
use std::marker::Model;

/// A theory with the index of its names, maybe as far as it is declared before a place. Contracts see it as
/// that theory.
#[derive(Drop)]
pub struct Indexed<'a> {
    theory: &'a DraftTheory,
    index: &'a Index,
    sorts: &'a [DraftSort],
    devices: &'a [DraftDevice],
    fluents: &'a [DraftFluent],
    actions: &'a [DraftAction],
}

impl<'a> Model for Indexed<'a> {
    ghost use Rattle.golog_tree.specs.declared.draft.DraftTheory.{DraftTheory};

    ghost Value = { DraftTheory };

    ghost use Rattle.std.specs.Coded.{codes};
    ghost use Rattle.golog_tree.specs.contracts.draft_cond.DraftCond as cond;
    ghost use Rattle.golog_tree.specs.contracts.draft_cond.DraftTerm as term;

    ghost coded = { Prim.hlevel (codes, cond.the_row.coded, term.the_row.coded) };

    ghost use Rattle.golog_theory.specs.Index.{declared, IsIndexUpTo};

    ghost view = { λ indexed. declared indexed.theory.now
        indexed.sorts.now indexed.devices.now indexed.fluents.now indexed.actions.now };

    ghost invariant = { λ indexed. IsIndexUpTo indexed.index.now
        (declared indexed.theory.now
        indexed.sorts.now indexed.devices.now indexed.fluents.now indexed.actions.now) };
}

impl<'a> Indexed<'a> {
    /// The theory with its index.
    pub fn new(theory: &'a DraftTheory, index: &'a Index) -> Indexed<'a>
        requires { IsIndexOf index.now theory.now }
        ensures { result ≡ theory.now }
    {
        Indexed {
            theory,
            index,
            sorts: theory.sorts.as_slice(),
            devices: theory.devices.as_slice(),
            fluents: theory.fluents.as_slice(),
            actions: theory.actions.as_slice(),
        }
    }

    /// The theory as far as it is declared before the place. Its other items stay.
    #[tactic(auto, unfolding(crate::specs::Before::before))]
    pub fn before(&self, place: Place) -> Indexed<'a>
        ensures { result ≡ before place self.now }
    {
        Indexed {
            theory: self.theory,
            index: self.index,
            sorts: items_before(self.sorts, place),
            devices: items_before(self.devices, place),
            fluents: items_before(self.fluents, place),
            actions: items_before(self.actions, place),
        }
    }

    /// The sorts of the theory.
    pub fn sorts(&self) -> &[DraftSort]
        ensures { result.now ≡ self.now.sorts }
    {
        self.sorts
    }

    /// The devices of the theory.
    pub fn devices(&self) -> &[DraftDevice]
        ensures { result.now ≡ self.now.devices }
    {
        self.devices
    }

    /// The fluents of the theory.
    pub fn fluents(&self) -> &[DraftFluent]
        ensures { result.now ≡ self.now.fluents }
    {
        self.fluents
    }

    /// The actions of the theory.
    pub fn actions(&self) -> &[DraftAction]
        ensures { result.now ≡ self.now.actions }
    {
        self.actions
    }

    /// The effects of the theory's actions.
    pub fn causes(&self) -> &[DraftCause]
        ensures { result.now ≡ self.now.causes }
    {
        self.theory.causes.as_slice()
    }

    /// Whether some sort lists the word among its constants.
    #[tactic(auto, using(crate::proofs::Lookups::laws))]
    pub fn is_constant(&self, word: &[u8]) -> bool
        ensures { result ≡ is_constant self.now word.now }
    {
        self.index
            .constants
            .get_below(word, self.sorts.len())
            .is_some()
    }

    /// The number of the sort with the name.
    pub fn sort_no(&self, name: &[u8]) -> Option<usize>
        ensures { result ≡ sort_no self.now name.now }
    {
        self.index.sorts.get_below(name, self.sorts.len())
    }

    /// The number of the device with the name.
    pub fn device_no(&self, name: &[u8]) -> Option<usize>
        ensures { result ≡ device_no self.now name.now }
    {
        self.index.devices.get_below(name, self.devices.len())
    }

    /// The number of the fluent with the name.
    pub fn fluent_no(&self, name: &[u8]) -> Option<usize>
        ensures { result ≡ fluent_no self.now name.now }
    {
        self.index.fluents.get_below(name, self.fluents.len())
    }

    /// The number of the action with the name.
    pub fn action_no(&self, name: &[u8]) -> Option<usize>
        ensures { result ≡ action_no self.now name.now }
    {
        self.index.actions.get_below(name, self.actions.len())
    }

    /// Whether the name is reserved, or an item declares it.
    #[tactic(auto, unfolding(crate::specs::Names::is_taken))]
    pub fn is_taken(&self, name: &[u8]) -> bool
        ensures { result ≡ is_taken self.now name.now }
    {
        is_reserved(name)
            || self.sort_no(name).is_some()
            || self.is_constant(name)
            || self.device_no(name).is_some()
            || self.fluent_no(name).is_some()
            || self.action_no(name).is_some()
    }

    /// How many arguments the fluent with the number has.
    pub fn fluent_arity(&self, fluent: usize) -> usize
        ensures { result ≡ fluent_arity self.now fluent }
    {
        match self.fluents.get(fluent) {
            Some(fluent) => fluent.args.len(),
            None => 0,
        }
    }

    /// How many arguments the action with the number has.
    pub fn action_arity(&self, action: usize) -> usize
        ensures { result ≡ action_arity self.now action }
    {
        match self.actions.get(action) {
            Some(action) => action.args.len(),
            None => 0,
        }
    }

    /// Whether the action with the number is one of the program: not built in, and posted by no device.
    #[tactic(auto, unfolding(crate::specs::Names::is_of_program))]
    pub fn is_of_program(&self, action: usize) -> bool
        ensures { result ≡ is_of_program self.now action }
    {
        action >= BUILT_IN && !is_posted(self.actions.get(action))
    }

    /// Whether the action with the number may stand in such a place.
    pub fn allows(&self, actions: Actions, action: usize) -> bool
        ensures { result ≡ allows self.now actions action }
    {
        match actions {
            Actions::OfProgram => self.is_of_program(action),
            Actions::All => true,
        }
    }
}

fn is_posted(action: Option<&DraftAction>) -> bool
    ensures { result ≡ is_posted (option_copied action.entry) }
{
    match action {
        Some(action) => action.posters.len() > 0,
        None => false,
    }
}
