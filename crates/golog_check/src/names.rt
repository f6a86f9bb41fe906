// `Names`, what is declared where a draft stands, by its numbers: one view that a draft's items and
// an agent both give.
ghost use Rattle.std.specs.Prelude.{◌≡◌, ◌≤◌, ◌<◌, length, position, IfSome};
ghost use Rattle.std.specs.List.{list_any};
ghost use Rattle.golog_tree.specs.Ground.{item_size};
ghost use Rattle.golog_semantics.specs.Fits.{is_range_item};
ghost use Rattle.golog_check.specs.DeclaredItems.{HasFewSorts, declared_in};
ghost use Rattle.golog_check.specs.Sorts.{same, lists, place_of_word, place_of_number, is_declared, listing, constant_of, constant, number_in, is_range, fluent_sort, fluent_sorts, action_sorts, param_sorts};
ghost use Rattle.golog_check.specs.Effects.{may_sense};

use crate::scope::Meant;
use golog_base::{List, Word};
use golog_tree::{ActionItem, Agent, Arg, FluentItem, Place, SortItem};
use std::marker::Model;

/// What is declared where a draft stands, each by its number. Contracts see it as the record of its lists.
#[derive(Drop)]
pub struct Names<'a> {
    sorts: &'a [SortItem],
    places: &'a [Place],
    fluents: &'a [FluentItem],
    actions: &'a [ActionItem],
    params: &'a [List<u32>],
}

impl<'a> Model for Names<'a> {
    ghost use Rattle.golog_check.specs.DeclaredItems.{Declared, HasFewSorts};

    ghost Value = { Declared };

    ghost view = { λ names. record {
      sorts = names.sorts.now;
      places = names.places.now;
      fluents = names.fluents.now;
      actions = names.actions.now;
      params = names.params.now;
    } };

    ghost invariant = { λ names. HasFewSorts names.sorts.now };
}

impl<'a> Names<'a> {
    /// Sorts with the places of their items, fluents, actions, and the sorts of each procedure's parameters. A
    /// sort without a place is declared everywhere.
    pub fn new(
        sorts: &'a [SortItem],
        places: &'a [Place],
        fluents: &'a [FluentItem],
        actions: &'a [ActionItem],
        params: &'a [List<u32>],
    ) -> Names<'a>
        requires { HasFewSorts sorts.now }
        ensures { result ≡ record {
          sorts = sorts.now;
          places = places.now;
          fluents = fluents.now;
          actions = actions.now;
          params = params.now;
        } }
    {
        Names {
            sorts,
            places,
            fluents,
            actions,
            params,
        }
    }

    /// What an agent declares for a condition.
    pub fn of_agent(agent: &'a Agent) -> Names<'a>
        requires { HasFewSorts agent.now.sorts }
        ensures { result ≡ declared_in agent.now }
    {
        Names {
            sorts: agent.sorts.as_slice(),
            places: &[],
            fluents: agent.fluents.as_slice(),
            actions: agent.actions.as_slice(),
            params: &[],
        }
    }

    /// Whether the sort's item stands before the place.
    fn is_declared(&self, at: Place, sort: usize) -> bool
        ensures { result ≡ is_declared self.now at sort }
    {
        match self.places.get(sort) {
            Some(place) => *place <= at,
            None => true,
        }
    }

    /// The number of the sort that lists the word before the place.
    fn listing(&self, word: &[u8], at: Place) -> Option<usize>
        ensures { result ≡ listing self.now word.now at }
    {
        let mut sorts = self.sorts.iter().enumerate();
        sorts.position(|(sort, item)| self.is_declared(at, sort) && lists(item, word))
    }

    /// The word as a constant of the sort.
    fn constant_of(&self, word: &[u8], sort: usize) -> Option<Meant>
        ensures { result ≡ constant_of self.now word.now sort }
    {
        let item = self.sorts.get(sort)?;
        let place = place_of_word(item, word)?;
        Some(Meant {
            arg: Arg::Const(place),
            sort: sort as u32,
        })
    }

    /// The word as a constant that is declared before the place.
    #[tactic(auto, unfolding(crate::specs::Sorts::constant))]
    pub fn constant(&self, word: &[u8], at: Place) -> Option<Meant>
        ensures { result ≡ constant self.now word.now at }
    {
        let sort = self.listing(word, at)?;
        self.constant_of(word, sort)
    }

    /// The place of a number among those of a sort.
    pub fn number_in(&self, sort: u32, number: i32) -> Option<u8>
        ensures { result ≡ number_in self.now sort number }
    {
        let item = self.sorts.get(sort as usize)?;
        place_of_number(item, number)
    }

    /// Whether the sort is one of whole numbers.
    pub fn is_range(&self, sort: u32) -> bool
        ensures { result ≡ is_range self.now sort }
    {
        match self.sorts.get(sort as usize) {
            Some(item) => is_range_item(item),
            None => false,
        }
    }

    /// The sort of a fluent.
    pub fn fluent_sort(&self, fluent: u32) -> Option<u32>
        ensures { result ≡ fluent_sort self.now fluent }
    {
        match self.fluents.get(fluent as usize) {
            Some(item) => Some(item.sort),
            None => None,
        }
    }

    /// The sorts of a fluent's arguments.
    pub fn fluent_sorts(&self, fluent: u32) -> &[u32]
        ensures { result.now ≡ fluent_sorts self.now fluent }
    {
        match self.fluents.get(fluent as usize) {
            Some(item) => item.args.as_slice(),
            None => &[],
        }
    }

    /// The sorts of an action's arguments.
    pub fn action_sorts(&self, action: u32) -> &[u32]
        ensures { result.now ≡ action_sorts self.now action }
    {
        match self.actions.get(action as usize) {
            Some(item) => item.args.as_slice(),
            None => &[],
        }
    }

    /// Whether the action has a device of its own, and no device posts it.
    pub fn may_sense(&self, action: u32) -> bool
        ensures { result ≡ may_sense self.now.actions action }
    {
        match self.actions.get(action as usize) {
            Some(item) => item.device.is_some() && item.posters.is_empty(),
            None => false,
        }
    }

    /// How many actions there are.
    pub fn action_count(&self) -> usize
        ensures { result ≡ length self.now.actions }
    {
        self.actions.len()
    }

    /// The sorts of a procedure's parameters.
    pub fn param_sorts(&self, item: u32) -> &[u32]
        ensures { result.now ≡ param_sorts self.now item }
    {
        match self.params.get(item as usize) {
            Some(sorts) => sorts.as_slice(),
            None => &[],
        }
    }
}

fn lists(item: &SortItem, word: &[u8]) -> bool
    ensures { result ≡ lists word.now item.now }
{
    match item {
        SortItem::Range { .. } => false,
        SortItem::Listed { constants, .. } => constants
            .as_slice()
            .iter()
            .any(|constant| word == constant.as_bytes()),
    }
}

fn place_among(constants: &[Word], word: &[u8]) -> Option<usize>
    ensures first { result ≡ position (same word.now) constants.now }
    ensures within { IfSome result (λ place. place < length constants.now) }
{
    constants
        .iter()
        .position(|constant| word == constant.as_bytes())
}

fn place_of_word(item: &SortItem, word: &[u8]) -> Option<u8>
    requires { item_size item.now ≤ 255 }
    ensures { result ≡ place_of_word word.now item.now }
{
    match item {
        SortItem::Range { .. } => None,
        SortItem::Listed { constants, .. } => match place_among(constants.as_slice(), word) {
            Some(place) => Some(place as u8),
            None => None,
        },
    }
}

fn place_of_number(item: &SortItem, number: i32) -> Option<u8>
    requires { item_size item.now ≤ 255 }
    ensures { result ≡ place_of_number number item.now }
{
    match item {
        SortItem::Range { low, high, .. } => {
            if number < *low || *high < number {
                return None;
            }
            Some((number - *low) as u8)
        }
        SortItem::Listed { .. } => None,
    }
}

fn is_range_item(item: &SortItem) -> bool
    ensures { result ≡ is_range_item item.now }
{
    matches!(item, SortItem::Range { .. })
}
