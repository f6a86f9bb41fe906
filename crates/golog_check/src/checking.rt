// `check`: what the theory declares, all parts checked to their end, and their least refusal or the
// agent.
ghost use Rattle.std.specs.Prelude.{◌≡◌, ◌<◌, [], ◌∷◌, List, length, map, All, IfOk};
ghost use Rattle.golog_tree.specs.declared.draft.DraftSense.{DraftSense};
ghost use Rattle.golog_tree.specs.declared.draft.DraftTheory.{DraftTheory};
ghost use Rattle.golog_tree.specs.declared.draft.DraftProgram.{DraftProgram};
ghost use Rattle.golog_tree.specs.declared.prog.Prog.{Prog};
ghost use Rattle.golog_tree.specs.Ground.{IsCountable, ground_fluents, numbered as spec_numbered};
ghost use Rattle.golog_draft.specs.Drafts.{TheoryKeeps, ProgramKeeps};
ghost use Rattle.golog_draft.specs.DraftOrder.{TheoryInOrder, ProgramInOrder};
ghost use Rattle.golog_semantics.specs.WellFormed.{WellFormed};
ghost use Rattle.golog_rows.specs.Reading.{Reading};
ghost use Rattle.golog_check.specs.Faults.{Answers};
ghost use Rattle.golog_check.specs.Checked.{IsChecked};
ghost use Rattle.golog_check.specs.DeclaredItems.{Declared, sort_item};
ghost use Rattle.golog_check.specs.Sums.{AreSmall, HaveFewArgs, fluent_counted, action_counted};
ghost use Rattle.golog_rows.specs.Least.{IsLeastOf};
ghost use Rattle.golog_check.specs.Least.{given};
ghost use Rattle.golog_check.specs.Effects.{cause_in, senses_in};
ghost use Rattle.golog_check.specs.Procs.{proc_in};
ghost use Rattle.golog_check.specs.Starts.{start_value};
ghost use Rattle.golog_check.specs.Check.{Checks, bare as spec_bare, main_in as spec_main_in, main_of as spec_main_of, names_of, refusals_in};
ghost use Rattle.golog_check.specs.Order.{IsLeastRow, all_rows};
ghost use Rattle.golog_check.specs.Parts.{AreParts};

use crate::checked::Checked;
use crate::copies::{copy_actions, copy_devices, copy_fluents, copy_sorts, sort_places};
use crate::effects::{cause_items_in, poss_items_in};
use crate::fault::{CheckFault, refuse_where};
use crate::names::Names;
use crate::numbering::numbered;
use crate::procs::{params_of_each, proc_items_in};
use crate::programs::prog_in;
use crate::sensing::sense_items_in;
use crate::start_values::initial_values;
use crate::starts::{Start, starts_in};
use crate::sums::{GROUND_ACTIONS, GROUND_FLUENTS, sum_passes};
use golog_base::{List, NoMemory, both};
use golog_rows::{Refusal, least_of};
use golog_shapes::{FRONT_DEEP, blocks_refused, fronts_refused, is_too_deep};
use golog_tree::{
    Agent, CauseItem, DraftMain, DraftProgram, DraftTheory, Firsts, PossItem, ProcItem, Prog,
    SenseItem, SortItem,
};
use std::alloc::Global;
use std::mem;

/// What a theory declares, with nothing said of it yet.
fn bare(alloc: Global, theory: &DraftTheory) -> Result<Agent, NoMemory>
    ensures { IfOk result (λ agent. agent ≡ spec_bare theory.now) }
{
    let sorts = copy_sorts(alloc, theory.sorts.as_slice());
    let fluents = copy_fluents(alloc, theory.fluents.as_slice());
    let actions = copy_actions(alloc, theory.actions.as_slice());
    let devices = copy_devices(alloc, theory.devices.as_slice());
    let first = both(sorts, fluents);
    let ((sorts, fluents), (actions, devices)) = both(first, both(actions, devices))?;
    Ok(Agent {
        sorts,
        fluents,
        actions,
        firsts: Firsts {
            sizes: List::new(alloc),
            fluents: List::new(alloc),
            actions: List::new(alloc),
        },
        devices,
        poss: List::new(alloc),
        causes: List::new(alloc),
        senses: List::new(alloc),
        starts: List::new(alloc),
        procs: List::new(alloc),
        main: Prog::Nil,
    })
}

/// The program of `main`, with no variable in scope. It is refused where it nests too deep.
#[tactic(auto, unfolding(crate::specs::Check::main_in))]
fn main_in(alloc: Global, names: &Names<'_>, main: &DraftMain) -> Result<Prog, CheckFault>
    ensures { Answers result (spec_main_in names.now main.now) }
{
    refuse_where(is_too_deep(&main.body), FRONT_DEEP, main.at)?;
    prog_in(alloc, names, &[], &main.body)
}

/// The parts of a draft as they were checked.
#[derive(Drop)]
pub struct Parts {
    pub fluent_sum: Option<Refusal>,
    pub action_sum: Option<Refusal>,
    pub starts: Checked<Start>,
    pub poss: Checked<PossItem>,
    pub causes: Checked<CauseItem>,
    pub senses: Checked<SenseItem>,
    pub procs: Checked<ProcItem>,
    pub fronts: Option<Refusal>,
    pub blocks: Option<Refusal>,
    pub main: Checked<Prog>,
}

fn main_checked(
    alloc: Global,
    names: &Names<'_>,
    main: &DraftMain,
) -> Result<Checked<Prog>, NoMemory>
    ensures { IfOk result (λ checked. IsChecked checked (spec_main_in names.now main.now ∷ [])) }
{
    let mut checked = Checked::new(alloc);
    checked.add(main_in(alloc, names, main))?;
    Ok(checked)
}

/// What the causes and the sensing items of a theory give.
fn effects_checked(
    alloc: Global,
    names: &Names<'_>,
    theory: &DraftTheory,
) -> Result<(Checked<CauseItem>, Checked<SenseItem>), NoMemory>
    requires { All (λ (item : DraftSense). item.action < length names.now.actions) theory.now.senses }
    ensures { IfOk result (λ checked. (IsChecked checked.0 (map (cause_in names.now) theory.now.causes))
        × (IsChecked checked.1 (senses_in names.now [] theory.now.senses))) }
{
    let causes = cause_items_in(alloc, names, theory.causes.as_slice());
    let senses = sense_items_in(alloc, names, theory.senses.as_slice());
    both(causes, senses)
}

/// What the procedures and `main` give.
fn programs_checked(
    alloc: Global,
    names: &Names<'_>,
    program: &DraftProgram,
) -> Result<(Checked<ProcItem>, Checked<Prog>), NoMemory>
    ensures { IfOk result (λ checked. (IsChecked checked.0 (map (proc_in names.now) program.now.procs))
        × (IsChecked checked.1 (spec_main_in names.now program.now.main ∷ []))) }
{
    let procs = proc_items_in(alloc, names, program.procs.as_slice());
    let main = main_checked(alloc, names, &program.main);
    both(procs, main)
}

/// Checks all parts of a draft.
fn parts_of(
    alloc: Global,
    names: &Names<'_>,
    sorts: &[SortItem],
    theory: &DraftTheory,
    program: &DraftProgram,
) -> Result<Parts, NoMemory>
    requires sorts { sorts.now ≡ map sort_item theory.now.sorts }
    requires small { AreSmall sorts.now }
    requires fluents { HaveFewArgs (map fluent_counted theory.now.fluents) }
    requires actions { HaveFewArgs (map action_counted theory.now.actions) }
    requires sensed { All (λ (item : DraftSense). item.action < length names.now.actions) theory.now.senses }
    ensures { IfOk result (λ parts. AreParts parts names.now theory.now program.now) }
{
    let fluent_sum = sum_passes(sorts, GROUND_FLUENTS, theory.fluents.as_slice());
    let action_sum = sum_passes(sorts, GROUND_ACTIONS, theory.actions.as_slice());
    let fronts = fronts_refused(alloc, program.procs.as_slice())?;
    let blocks = blocks_refused(alloc, program.procs.as_slice(), &program.main.body)?;
    let starts = starts_in(alloc, names, theory.starts.as_slice());
    let poss = poss_items_in(alloc, names, theory.poss.as_slice());
    let effects = effects_checked(alloc, names, theory);
    let programs = programs_checked(alloc, names, program);
    let states = both(starts, poss);
    let later = both(effects, programs);
    let items = both(states, later)?;
    let ((starts, poss), ((causes, senses), (procs, main))) = items;
    Ok(Parts {
        fluent_sum,
        action_sum,
        starts,
        poss,
        causes,
        senses,
        procs,
        fronts,
        blocks,
        main,
    })
}

/// The least refusal of all parts.
fn least(parts: &Parts) -> Option<Refusal>
    ensures { (names : Declared) (theory : DraftTheory) (program : DraftProgram)
        → AreParts parts.now names theory program → IsLeastOf result (refusals_in names theory program) }
{
    let sums = least_of(parts.fluent_sum, parts.action_sum);
    let starts = least_of(sums, parts.starts.least);
    let poss = least_of(starts, parts.poss.least);
    let causes = least_of(poss, parts.causes.least);
    let senses = least_of(causes, parts.senses.least);
    let procs = least_of(senses, parts.procs.least);
    let fronts = least_of(procs, parts.fronts);
    let blocks = least_of(fronts, parts.blocks);
    least_of(blocks, parts.main.least)
}

/// The one program that was given.
fn main_of(main: List<Prog>) -> Prog
    ensures { (reading : Reading Prog) → main ≡ given (reading ∷ []) → result ≡ spec_main_of reading.outcome }
{
    let mut main = main;
    main.pop().unwrap_or(Prog::Nil)
}

/// The agent of what is declared, of its start values and of the parts, none of which is refused.
fn agent_with(agent: Agent, starts: List<u8>, parts: Parts) -> Agent
    ensures { (reading : Reading Prog) → parts.main.items ≡ given (reading ∷ [])
        → result ≡ record agent {
          poss = parts.poss.items;
          causes = parts.causes.items;
          senses = parts.senses.items;
          starts = starts;
          procs = parts.procs.items;
          main = spec_main_of reading.outcome;
        } }
{
    let Parts {
        starts: checked,
        poss,
        causes,
        senses,
        procs,
        main,
        ..
    } = parts;
    drop(checked);
    let mut agent = agent;
    drop(mem::replace(&mut agent.poss, poss.items));
    drop(mem::replace(&mut agent.causes, causes.items));
    drop(mem::replace(&mut agent.senses, senses.items));
    drop(mem::replace(&mut agent.starts, starts));
    drop(mem::replace(&mut agent.procs, procs.items));
    drop(mem::replace(&mut agent.main, main_of(main.items)));
    agent
}

/// Checks all parts of a theory and a program, by what the theory declares.
fn parts_for(
    alloc: Global,
    agent: &Agent,
    theory: &DraftTheory,
    program: &DraftProgram,
) -> Result<Parts, NoMemory>
    requires keeps { TheoryKeeps theory.now }
    requires bare { agent.now ≡ spec_bare theory.now }
    ensures { IfOk result (λ parts. AreParts parts (names_of theory.now program.now) theory.now program.now) }
{
    let places = sort_places(alloc, theory.sorts.as_slice())?;
    let params = params_of_each(alloc, program.procs.as_slice())?;
    let sorts = agent.sorts.as_slice();
    let names = Names::new(
        sorts,
        places.as_slice(),
        agent.fluents.as_slice(),
        agent.actions.as_slice(),
        params.as_slice(),
    );
    let parts = parts_of(alloc, &names, sorts, theory, program);
    drop(names);
    drop(params);
    drop(places);
    parts
}

/// The agent of what is declared and of the parts, none of which is refused.
fn with_starts(alloc: Global, agent: Agent, parts: Parts) -> Result<Agent, NoMemory>
    requires { IsCountable agent }
    ensures { IfOk result (λ whole. (reading : Reading Prog) → parts.main.items ≡ given (reading ∷ [])
        → whole ≡ record agent {
          poss = parts.poss.items;
          causes = parts.causes.items;
          senses = parts.senses.items;
          starts = map (start_value parts.starts.items) (ground_fluents agent);
          procs = parts.procs.items;
          main = spec_main_of reading.outcome;
        }) }
{
    match initial_values(alloc, &agent, parts.starts.items.as_slice()) {
        Ok(starts) => Ok(agent_with(agent, starts, parts)),
        Err(NoMemory) => {
            drop(parts);
            drop(agent);
            Err(NoMemory)
        }
    }
}

/// The agent of what is declared, numbered, and of the parts, none of which is refused.
fn whole(alloc: Global, agent: Agent, parts: Parts) -> Result<Agent, NoMemory>
    requires { IsCountable (spec_numbered agent) }
    ensures { IfOk result (λ whole. (reading : Reading Prog) → parts.main.items ≡ given (reading ∷ [])
        → whole ≡ record (spec_numbered agent) {
          poss = parts.poss.items;
          causes = parts.causes.items;
          senses = parts.senses.items;
          starts = map (start_value parts.starts.items) (ground_fluents (spec_numbered agent));
          procs = parts.procs.items;
          main = spec_main_of reading.outcome;
        }) }
{
    match numbered(alloc, agent) {
        Ok(agent) => with_starts(alloc, agent, parts),
        Err(NoMemory) => {
            drop(parts);
            Err(NoMemory)
        }
    }
}

/// The agent of the parts, or their least refusal.
fn answer(
    alloc: Global,
    agent: Agent,
    parts: Parts,
    theory: &DraftTheory,
    program: &DraftProgram,
) -> Result<Agent, CheckFault>
    requires keeps { TheoryKeeps theory.now }
    requires bare { agent ≡ spec_bare theory.now }
    requires parts { AreParts parts (names_of theory.now program.now) theory.now program.now }
    ensures { Checks result theory.now program.now }
{
    match least(&parts) {
        Some(refusal) => {
            drop(parts);
            drop(agent);
            Err(CheckFault::Refused {
                code: refusal.code,
                at: refusal.at,
            })
        }
        None => Ok(whole(alloc, agent, parts)?),
    }
}

/// The agent that a theory and a program make, which were read from one file. It is refused where a rule of
/// sorts, words, sums of ground things, start values, sensing, guarded procedures, search blocks or nests is broken,
/// with the code and the place of the least refusal: that of the least place, and there the least code. Where the
/// places of the draft stand in order, as those of a draft that was read do, that is the least of all rows that fit.
pub fn check(
    alloc: Global,
    theory: &DraftTheory,
    program: &DraftProgram,
) -> Result<Agent, CheckFault>
    requires keeps { TheoryKeeps theory.now }
    requires program_keeps { ProgramKeeps theory.now program.now }
    ensures answer { Checks result theory.now program.now }
    ensures least { TheoryInOrder theory.now → ProgramInOrder program.now → IsLeastRow result (all_rows theory.now program.now) }
    ensures well_formed { IfOk result WellFormed }
{
    let agent = bare(alloc, theory)?;
    match parts_for(alloc, &agent, theory, program) {
        Ok(parts) => answer(alloc, agent, parts, theory, program),
        Err(NoMemory) => {
            drop(agent);
            Err(CheckFault::Memory)
        }
    }
}
