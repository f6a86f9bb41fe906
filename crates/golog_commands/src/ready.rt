// What each input of a command holds, or what is said in its place: `agent_in`, `understood_in`,
// `ready_in`, `told_in`, `condition_in`.
ghost use Rattle.std.specs.Prelude.{◌≡◌, ◌≤◌, ◌++◌, All, IfOk, IfErr, IfSome, IsTrue, IsSomeAnd, OnOk, OnErr, length, option_map};
ghost use Rattle.golog_semantics.specs.Fits.{cond_fits, nothing_bound};
ghost use Rattle.golog_semantics.specs.InSorts.{AreInSorts};
ghost use Rattle.golog_semantics.specs.Reports.{IsReport};
ghost use Rattle.golog_semantics.specs.Restart.{started};
ghost use Rattle.golog_semantics.specs.WellFormed.{WellFormed};
ghost use Rattle.golog_script.specs.ScriptTexts.{HasTexts};
ghost use Rattle.golog_file.specs.Conditions.{CondsStayKept, SpellsCond};
ghost use Rattle.golog_file.specs.Spelled.{IsFirstRefusal};
ghost use Rattle.golog_commands.specs.Inputs.{Reads, ReadsAgent, ReadsScripts, RefusesJournal, RefusesScripts, SpellsBoth, SpellsJournal, SpellsScripts, input_limit, refusal_text};
ghost use Rattle.golog_commands.specs.Outcome.{BeginsFrom, CondFails, FileFails, HoldsRun, IfEnded, IsTooLong, Never, OfAgent, OfFrom, OfScripts};
ghost use Rattle.golog_base.specs.Files.{FileHas, file_limit};
ghost use Rattle.golog_commands.specs.declared.outcome.Input.TheVariants.{Agent as AgentFile, Devices as DevicesFile, Journal as JournalFile};
ghost use Rattle.golog_commands.specs.declared.outcome.Outcome.TheVariants.{Refused};

use crate::outcome::{Input, Outcome};
use crate::starts::{restart_at, start_in};
use golog_base::{Bytes, Files, List, NoMemory, ReadFault, read_all};
use golog_check_text::add_count;
use golog_file::{AgentFault, CondFault, Understood, read_condition, read_theory_and_agent};
use golog_reports::{TextFault, read_journal};
use golog_script::{Script, ScriptFault, scripts_of};
use golog_semantics::Report;
use golog_tree::{Agent, Cond};
use std::alloc::Global;

/// The code of an input with more bytes than it may have.
const TOO_LONG: u8 = 5;

/// What the files of a run hold.
#[derive(Drop)]
pub struct Ready {
    /// The agent of the agent file, restarted at the values below where there are some.
    pub agent: Agent,
    /// The scripts of the devices file, in its order; none without one.
    pub scripts: List<Script>,
    /// The values that the journal file leaves, from which the run begins; none without one.
    pub start: Option<List<u8>>,
}

/// What a journal file tells.
#[derive(Drop)]
pub struct Told {
    /// Its bytes.
    pub bytes: Bytes,
    /// The report that they say.
    pub report: Report,
}

/// Why an input holds nothing.
#[derive(Drop)]
pub enum Unready {
    /// It can't be read, or is refused: what the call comes to.
    Ended(Outcome),
    /// Memory ran out.
    Memory,
}

// A crate that drops a value proves for itself how all parts of it are let go. So what is read here is let go here.

impl Ready {
    /// Lets it go.
    pub fn let_go(self) {
        drop(self)
    }
}

impl Told {
    /// Lets it go.
    pub fn let_go(self) {
        drop(self)
    }
}

/// Lets an agent go.
pub fn let_go(agent: Agent) {
    drop(agent)
}

/// What it comes to that an input holds nothing, unless memory ran out.
pub fn ended(unready: Unready) -> Result<Outcome, NoMemory>
    ensures outcome { IfOk result (λ outcome. unready ≡ Unready.Ended outcome) }
    ensures memory { OnErr result (unready ≡ Unready.Memory) }
{
    match unready {
        Unready::Ended(outcome) => Ok(outcome),
        Unready::Memory => Err(NoMemory),
    }
}

/// What the files of these names hold: an agent, scripts of its devices, and the values from which it begins, at which
/// it was restarted. What was read of the journal is let go.
pub fn ready_in<F: Files>(
    alloc: Global,
    files: &mut F,
    agent: &str,
    devices: Option<&str>,
    from: Option<&str>,
) -> Result<Ready, Unready>
    ensures ready { IfOk result (HoldsRun (F.held files.old) agent.now (option_map (λ file. file.now) devices.entry)
        (option_map (λ file. file.now) from.entry)) }
    ensures unready { IfErr result (λ fault. IfEnded fault
        (OfAgent (F.held files.old) (F.faults files.old) (F.faults files.new) agent.now
        (λ a. OfScripts (F.held files.old) (F.faults files.old) (F.faults files.new) a
        (option_map (λ file. file.now) devices.entry)
        (λ listed. OfFrom (F.held files.old) (F.faults files.old) (F.faults files.new) a
        (option_map (λ file. file.now) from.entry) Never)))) }
{
    match agent_in(alloc, files, agent) {
        Ok(agent) => ready_of(alloc, files, agent, devices, from),
        Err(unready) => Err(unready),
    }
}

/// The same of an agent that was read.
pub(crate) fn ready_of<F: Files>(
    alloc: Global,
    files: &mut F,
    agent: Agent,
    devices: Option<&str>,
    from: Option<&str>,
) -> Result<Ready, Unready>
    requires { WellFormed agent }
    ensures texts { IfOk result (λ ready. All HasTexts ready.scripts) }
    ensures scripts { IfOk result (λ ready. ReadsScripts (F.held files.old) agent
        (option_map (λ file. file.now) devices.entry) ready.scripts) }
    ensures begins { IfOk result (BeginsFrom (F.held files.old) agent
        (option_map (λ file. file.now) from.entry)) }
    ensures unready { IfErr result (λ fault. IfEnded fault
        (OfScripts (F.held files.old) (F.faults files.old) (F.faults files.new) agent
        (option_map (λ file. file.now) devices.entry)
        (λ listed. OfFrom (F.held files.old) (F.faults files.old) (F.faults files.new) agent
        (option_map (λ file. file.now) from.entry) Never))) }
{
    match scripts_in(alloc, files, devices, &agent) {
        Ok(scripts) => ready_from(alloc, files, agent, scripts, from),
        Err(unready) => {
            drop(agent);
            Err(unready)
        }
    }
}

// The same of an agent and scripts that were read.
fn ready_from<F: Files>(
    alloc: Global,
    files: &mut F,
    agent: Agent,
    scripts: List<Script>,
    from: Option<&str>,
) -> Result<Ready, Unready>
    requires { WellFormed agent }
    ensures scripts { IfOk result (λ ready. ready.scripts ≡ scripts) }
    ensures begins { IfOk result (BeginsFrom (F.held files.old) agent
        (option_map (λ file. file.now) from.entry)) }
    ensures unready { IfErr result (λ fault. IfEnded fault
        (OfFrom (F.held files.old) (F.faults files.old) (F.faults files.new) agent
        (option_map (λ file. file.now) from.entry) Never)) }
{
    match start_in(alloc, files, from, &agent) {
        Ok(start) => restarted(alloc, agent, scripts, start),
        Err(unready) => {
            drop(scripts);
            drop(agent);
            Err(unready)
        }
    }
}

// The agent restarted at these values, if there are some.
fn restarted(
    alloc: Global,
    mut agent: Agent,
    scripts: List<Script>,
    start: Option<List<u8>>,
) -> Result<Ready, Unready>
    requires formed { WellFormed agent }
    requires sorts { IfSome start (AreInSorts agent) }
    ensures scripts { IfOk result (λ ready. ready.scripts ≡ scripts) }
    ensures start { IfOk result (λ ready. ready.start ≡ start) }
    ensures formed { IfOk result (λ ready. WellFormed ready.agent) }
    ensures is { IfOk result (λ ready. ready.agent ≡ started agent ready.start) }
    ensures kept { IfOk result (λ ready. IfSome ready.start (AreInSorts ready.agent)) }
    ensures memory { IfErr result (λ fault. fault ≡ Unready.Memory) }
{
    match restart_at(alloc, &mut agent, &start) {
        Ok(()) => Ok(Ready {
            agent,
            scripts,
            start,
        }),
        Err(NoMemory) => {
            drop(start);
            drop(scripts);
            drop(agent);
            Err(Unready::Memory)
        }
    }
}

/// The agent that the file of this name spells.
pub fn agent_in<F: Files>(alloc: Global, files: &mut F, name: &str) -> Result<Agent, Unready>
    ensures formed { IfOk result WellFormed }
    ensures reads { IfOk result (ReadsAgent (F.held files.old) name.now) }
    ensures unready { IfErr result (λ fault. IfEnded fault
        (FileFails AgentFile IsFirstRefusal (F.held files.old) name.now (F.faults files.old) (F.faults files.new))) }
    ensures held { F.held files.new ≡ F.held files.old }
    ensures faults { F.faults files.old ≤ F.faults files.new }
{
    match understood_in(alloc, files, name) {
        Ok(understood) => Ok(without_theory(understood)),
        Err(unready) => Err(unready),
    }
}

// The agent alone.
fn without_theory(understood: Understood) -> Agent
    ensures { result ≡ understood.agent }
{
    let Understood { theory, agent } = understood;
    drop(theory);
    agent
}

/// The agent that the file of this name spells, one of the two of a team.
pub fn agent_as<F: Files>(
    alloc: Global,
    files: &mut F,
    input: Input,
    name: &str,
) -> Result<Agent, Unready>
    requires { input_limit input ≡ file_limit }
    ensures formed { IfOk result WellFormed }
    ensures reads { IfOk result (ReadsAgent (F.held files.old) name.now) }
    ensures unready { IfErr result (λ fault. IfEnded fault
        (FileFails input IsFirstRefusal (F.held files.old) name.now (F.faults files.old) (F.faults files.new))) }
    ensures held { F.held files.new ≡ F.held files.old }
    ensures faults { F.faults files.old ≤ F.faults files.new }
{
    match understood_as(alloc, files, input, name) {
        Ok(understood) => Ok(without_theory(understood)),
        Err(unready) => Err(unready),
    }
}

/// The agent that the file of this name spells, with its theory.
pub fn understood_in<F: Files>(
    alloc: Global,
    files: &mut F,
    name: &str,
) -> Result<Understood, Unready>
    ensures formed { IfOk result (λ understood. WellFormed understood.agent) }
    ensures kept { IfOk result (λ understood. CondsStayKept understood.theory understood.agent) }
    ensures reads { IfOk result (λ understood. Reads (F.held files.old) name.now
        (λ bytes. SpellsBoth bytes understood)) }
    ensures unready { IfErr result (λ fault. IfEnded fault
        (FileFails AgentFile IsFirstRefusal (F.held files.old) name.now (F.faults files.old) (F.faults files.new))) }
    ensures held { F.held files.new ≡ F.held files.old }
    ensures faults { F.faults files.old ≤ F.faults files.new }
{
    understood_as(alloc, files, Input::Agent, name)
}

// The same of a file that is this input.
fn understood_as<F: Files>(
    alloc: Global,
    files: &mut F,
    input: Input,
    name: &str,
) -> Result<Understood, Unready>
    requires { input_limit input ≡ file_limit }
    ensures formed { IfOk result (λ understood. WellFormed understood.agent) }
    ensures kept { IfOk result (λ understood. CondsStayKept understood.theory understood.agent) }
    ensures reads { IfOk result (λ understood. Reads (F.held files.old) name.now
        (λ bytes. SpellsBoth bytes understood)) }
    ensures unready { IfErr result (λ fault. IfEnded fault
        (FileFails input IsFirstRefusal (F.held files.old) name.now (F.faults files.old) (F.faults files.new))) }
    ensures held { F.held files.new ≡ F.held files.old }
    ensures faults { F.faults files.old ≤ F.faults files.new }
{
    match bytes_in(alloc, files, input, name) {
        Ok(bytes) => match read_theory_and_agent(alloc, bytes.as_slice()) {
            Ok(understood) => {
                drop(bytes);
                Ok(understood)
            }
            Err(AgentFault::Refused { code, at }) => {
                drop(bytes);
                Err(refused(alloc, input, code, at))
            }
            Err(AgentFault::Memory) => {
                drop(bytes);
                Err(Unready::Memory)
            }
        },
        Err(unready) => Err(unready),
    }
}

// The scripts that the file of this name spells for the agent's devices; none where there is no name.
fn scripts_in<F: Files>(
    alloc: Global,
    files: &mut F,
    name: Option<&str>,
    agent: &Agent,
) -> Result<List<Script>, Unready>
    ensures texts { IfOk result (All HasTexts) }
    ensures reads { IfOk result (ReadsScripts (F.held files.old) agent.now (option_map (λ file. file.now) name.entry)) }
    ensures unready { IfErr result (λ fault. IfEnded fault (λ outcome.
        IsSomeAnd (option_map (λ file. file.now) name.entry) (λ file.
        FileFails DevicesFile (RefusesScripts agent.now) (F.held files.old) file
        (F.faults files.old) (F.faults files.new) outcome))) }
    ensures held { F.held files.new ≡ F.held files.old }
    ensures faults { F.faults files.old ≤ F.faults files.new }
{
    match name {
        Some(name) => scripts_under(alloc, files, name, agent),
        None => Ok(List::new(alloc)),
    }
}

// The scripts that the file of this name spells for the agent's devices.
fn scripts_under<F: Files>(
    alloc: Global,
    files: &mut F,
    name: &str,
    agent: &Agent,
) -> Result<List<Script>, Unready>
    ensures texts { IfOk result (All HasTexts) }
    ensures reads { IfOk result (λ listed. Reads (F.held files.old) name.now
        (λ bytes. SpellsScripts agent.now bytes listed)) }
    ensures unready { IfErr result (λ fault. IfEnded fault (FileFails DevicesFile (RefusesScripts agent.now)
        (F.held files.old) name.now (F.faults files.old) (F.faults files.new))) }
    ensures held { F.held files.new ≡ F.held files.old }
    ensures faults { F.faults files.old ≤ F.faults files.new }
{
    match bytes_in(alloc, files, Input::Devices, name) {
        Ok(bytes) => match scripts_of(alloc, bytes.as_slice(), &agent.devices) {
            Ok(scripts) => {
                drop(bytes);
                Ok(scripts)
            }
            Err(ScriptFault::Refused { code, at }) => {
                drop(bytes);
                Err(refused(alloc, Input::Devices, code, at))
            }
            Err(ScriptFault::Memory) => {
                drop(bytes);
                Err(Unready::Memory)
            }
        },
        Err(unready) => Err(unready),
    }
}

/// What the journal file of this name tells of the agent.
pub fn told_in<F: Files>(
    alloc: Global,
    files: &mut F,
    name: &str,
    agent: &Agent,
) -> Result<Told, Unready>
    requires { WellFormed agent.now }
    ensures fits { IfOk result (λ told. IsReport agent.now told.report) }
    ensures reads { IfOk result (λ told. Reads (F.held files.old) name.now
        (λ bytes. SpellsJournal agent.now bytes told)) }
    ensures unready { IfErr result (λ fault. IfEnded fault (FileFails JournalFile (RefusesJournal agent.now)
        (F.held files.old) name.now (F.faults files.old) (F.faults files.new))) }
{
    match bytes_in(alloc, files, Input::Journal, name) {
        Ok(bytes) => match read_journal(alloc, agent, bytes.as_slice()) {
            Ok(report) => Ok(Told { bytes, report }),
            Err(TextFault::Refused { line, why }) => {
                drop(bytes);
                Err(refused(alloc, Input::Journal, why, line))
            }
            Err(TextFault::Memory) => {
                drop(bytes);
                Err(Unready::Memory)
            }
        },
        Err(unready) => Err(unready),
    }
}

/// The condition that a word spells over an agent and its theory.
pub fn condition_in(alloc: Global, understood: &Understood, word: &str) -> Result<Cond, Unready>
    requires formed { WellFormed understood.now.agent }
    requires kept { CondsStayKept understood.now.theory understood.now.agent }
    ensures fits { IfOk result (λ cond. IsTrue (cond_fits understood.now.agent cond nothing_bound)) }
    ensures spells { IfOk result (SpellsCond understood.now.theory understood.now.agent word.now) }
    ensures unready { IfErr result (λ fault. IfEnded fault
        (CondFails understood.now.theory understood.now.agent word.now)) }
{
    match read_condition(
        alloc,
        &understood.theory,
        &understood.agent,
        word.as_bytes(),
    ) {
        Ok(cond) => Ok(cond),
        Err(CondFault::Refused { code, at }) => Err(refused(alloc, Input::Condition, code, at)),
        Err(CondFault::Memory) => Err(Unready::Memory),
    }
}

// The bytes of the file of this name.
fn bytes_in<F: Files>(
    alloc: Global,
    files: &mut F,
    input: Input,
    name: &str,
) -> Result<Bytes, Unready>
    ensures read { IfOk result (λ bytes. FileHas (F.held files.old) name.now (λ held. held ≡ bytes)) }
    ensures small { IfOk result (λ bytes. length bytes ≤ input_limit input) }
    ensures unready { IfErr result (λ fault. IfEnded fault
        (FileFails input (IsTooLong input) (F.held files.old) name.now (F.faults files.old) (F.faults files.new))) }
    ensures held { F.held files.new ≡ F.held files.old }
    ensures faults { F.faults files.old ≤ F.faults files.new }
{
    let limit = input.limit();
    match read_all(alloc, files, name, limit) {
        Ok(bytes) => Ok(bytes),
        Err(ReadFault::Failed) => Err(Unready::Ended(Outcome::ReadFault(input))),
        Err(ReadFault::TooLong) => Err(refused(alloc, input, TOO_LONG, limit)),
        Err(ReadFault::Memory) => Err(Unready::Memory),
    }
}

// What is said of an input that is refused with this code at this place.
fn refusal_text(alloc: Global, input: Input, code: u8, at: u32) -> Result<Bytes, NoMemory>
    ensures { IfOk result (λ text. text ≡ refusal_text input code at) }
{
    let mut text = Bytes::new(alloc);
    match add_refusal(&mut text, input, code, at) {
        Ok(()) => Ok(text),
        Err(fault) => {
            drop(text);
            Err(fault)
        }
    }
}

// Adds that.
fn add_refusal(text: &mut Bytes, input: Input, code: u8, at: u32) -> Result<(), NoMemory>
    ensures { OnOk result (text.new ≡ text.old ++ refusal_text input code at) }
{
    text.extend(b"refused ")?;
    text.extend(input.name().as_bytes())?;
    add_count(text, b" ", usize::from(code))?;
    add_count(text, b" at ", at as usize)?;
    text.extend(b"\n")
}

// The refusal of an input.
pub(crate) fn refused(alloc: Global, input: Input, code: u8, at: u32) -> Unready
    ensures { IfEnded result (λ outcome. outcome ≡ Refused input (refusal_text input code at)) }
{
    match refusal_text(alloc, input, code, at) {
        Ok(text) => Unready::Ended(Outcome::Refused { input, text }),
        Err(NoMemory) => Unready::Memory,
    }
}
