//! What a side does with its journal.
ghost use Rattle.std.specs.Prelude.{◌≡◌, ◌<◌, ◌≤◌, true, false, None, if◌then◌else◌, length, option_map, slice_get};
ghost use Rattle.golog_semantics.specs.WellFormed.{WellFormed};
ghost use Rattle.golog_semantics.specs.Journal.{commands, is_open, has_end, longest};
ghost use Rattle.golog_semantics.specs.Posts.{posted_entry};
ghost use Rattle.golog_journal.specs.Boards.{journal_with};
ghost use Rattle.golog_journal.specs.Leading.{IsBehind, SameMind};
ghost use Rattle.golog_journal.specs.Posting.{MayPost};
ghost use Rattle.golog_journal.specs.Taken.{IsReady};
ghost use Rattle.golog_team.specs.declared.note.Note.TheVariants.{Send};
ghost use Rattle.golog_team.specs.Steps.{posted_as};
ghost use Rattle.golog_team.specs.Sides.{HasLed};

use crate::note::Note;
use crate::shape::is_carried;
use golog_ground::{action_text, read_action};
use golog_journal::{AgentFacts, Board, Item, Journal, Lead, Led, Next};
use golog_tree::Agent;

/// The one device of an agent.
pub(crate) const DEVICE: u8 = 0;

/// Posts an item of the one device.
pub(crate) fn post(journal: &mut Journal, item: Item, taken: u32)
    requires { MayPost journal.old.agent journal.old.entries 0 taken item }
    ensures { journal.new ≡ journal_with journal.old (posted_entry journal.old.agent journal.old.entries 0 taken item) }
{
    let _posted = journal.post(DEVICE, item, taken);
}

/// The action of the next command, while the device is open.
pub(crate) fn untaken(journal: &mut Journal, taken: u32) -> Option<u32>
    requires device { 0 < length journal.old.agent.devices }
    requires ready { is_open 0 journal.old.entries ≡ true → IsReady journal.old.agent journal.old.entries 0 taken }
    ensures same { journal.new ≡ journal.old }
    ensures next { result ≡ option_map (λ c. c.action)
        (if is_open 0 journal.old.entries then slice_get (commands journal.old.agent 0 journal.old.entries) taken else None) }
{
    if journal.is_open(DEVICE) {
        next_of(journal, taken)
    } else {
        None
    }
}

fn next_of(journal: &mut Journal, taken: u32) -> Option<u32>
    requires ready { IsReady journal.old.agent journal.old.entries 0 taken }
    ensures same { journal.new ≡ journal.old }
    ensures next { result ≡ option_map (λ c. c.action) (slice_get (commands journal.old.agent 0 journal.old.entries) taken) }
{
    match journal.next_command(DEVICE, taken) {
        Next::Command { action, .. } => Some(action),
        Next::Nothing { .. } | Next::Ended => None,
    }
}

/// What a note of the other side is posted as.
pub(crate) fn item_of(agent: &Agent, other: &Agent, facts: &AgentFacts, note: Note) -> Item
    requires formed { WellFormed agent.now × WellFormed other.now }
    requires facts { facts.now ≡ other.now }
    ensures { result ≡ posted_as agent.now other.now note }
{
    match note {
        Note::Send { action } => item_of_action(agent, other, facts, action),
        Note::Waiting { .. } | Note::Ended => Item::Close,
    }
}

// An action of the other agent's device is read by its text.
fn item_of_action(agent: &Agent, other: &Agent, facts: &AgentFacts, action: u32) -> Item
    requires formed { WellFormed agent.now × WellFormed other.now }
    requires facts { facts.now ≡ other.now }
    ensures { result ≡ posted_as agent.now other.now (Send action) }
{
    if !is_carried(facts, action) {
        return Item::Unreadable;
    }
    let text = action_text(other, action);
    match read_action(agent, text.as_bytes()) {
        Some(heard) => Item::Exo(heard),
        None => Item::Unreadable,
    }
}

/// Gives the program a turn, and answers whether it has ended.
pub(crate) fn lead_turn<L: Lead>(lead: &mut L, journal: &mut Journal) -> bool
    requires agent { (L.mind lead.old).agent ≡ journal.old.agent }
    requires behind { IsBehind (L.mind lead.old).list journal.old.entries }
    requires goes_on { has_end journal.old.entries ≡ false }
    ensures same { SameMind (L.mind lead.old) (L.mind lead.new) }
    ensures stands { L.stands lead.old → L.stands lead.new }
    ensures behind { IsBehind (L.mind lead.new).list journal.new.entries }
    ensures agent { journal.new.agent ≡ journal.old.agent }
    ensures ended { result ≡ has_end journal.new.entries }
    ensures led { HasLed journal.old.agent (L.mind lead.old).waits journal.old.entries journal.new.entries }
{
    match lead.turn(journal) {
        Led::Ended => true,
        Led::More => false,
    }
}

/// The program copies what it lacks of its journal.
pub(crate) fn gather<L: Lead>(lead: &mut L, journal: &mut Journal)
    requires agent { (L.mind lead.old).agent ≡ journal.old.agent }
    requires behind { IsBehind (L.mind lead.old).list journal.old.entries }
    ensures same { SameMind (L.mind lead.old) (L.mind lead.new) }
    ensures stands { L.stands lead.old → L.stands lead.new }
    ensures whole { (L.mind lead.new).list ≡ journal.new.entries }
    ensures journal { journal.new ≡ journal.old }
    ensures short { length journal.new.entries ≤ longest }
{
    lead.gather(journal);
}

/// Posts what a note of the other side says, where the device is open.
pub(crate) fn take_up(
    journal: &mut Journal,
    agent: &Agent,
    other: &Agent,
    facts: &AgentFacts,
    taken: u32,
    note: Note,
)
    requires formed { WellFormed agent.now × WellFormed other.now }
    requires facts { facts.now ≡ other.now }
    requires agent { journal.old.agent ≡ agent.now }
    requires device { 0 < length agent.now.devices }
    requires ready { is_open 0 journal.old.entries ≡ true → IsReady agent.now journal.old.entries 0 taken }
    ensures { journal.new ≡ (if is_open 0 journal.old.entries
        then journal_with journal.old (posted_entry agent.now journal.old.entries 0 taken (posted_as agent.now other.now note))
        else journal.old) }
{
    if journal.is_open(DEVICE) {
        post(journal, item_of(agent, other, facts, note), taken);
    }
}
