//! `one_turn`, one turn of an open device, and what it answers, `Turned`.
ghost use Rattle.std.specs.Prelude.{◌≡◌, ◌≢◌, ◌↔◌, ◌<◌, ◌≤◌, ◌+◌, ℕ, true, false, Some, None, length, option_map, option_and_then, slice_get};
ghost use Rattle.golog_tree.specs.Ground.{ground_count, action_args};
ghost use Rattle.golog_semantics.specs.WellFormed.{WellFormed};
ghost use Rattle.golog_semantics.specs.Values.{fluent_sort};
ghost use Rattle.golog_semantics.specs.Journal.{fluent_sensed, is_sensing, is_open};
ghost use Rattle.golog_semantics.specs.Dealt.{Script, value_item as item_of_sensed};
ghost use Rattle.golog_journal.specs.Taken.{IsDriven, IsReady};
ghost use Rattle.golog_journal.specs.Boards.{IsBoardList};
ghost use Rattle.golog_journal.specs.Commands.{next_of};
ghost use Rattle.golog_journal.specs.Posting.{MayPost};
ghost use Rattle.golog_device.specs.Turns.{done_by as turned_by, PostsItem, answer_item, idle_item, idle_turn as idle_turned};
ghost use Rattle.golog_device.specs.Turns.{ServesCommand, FillsTime, TurnsBy, Turns};
ghost use Rattle.golog_device.specs.Dealing.{DealtSoFar, DealtAfter, ScriptedTurn};

use crate::{Device, Idle, Served};
use golog_ground::{action_text, read_action, read_constant};
use golog_journal::{Board, Item, Next, Posted, sense_for};
use golog_tree::{Agent, action_of};

/// What a turn did.
#[derive(Clone, Copy, Debug, PartialEq, Eq)]
pub enum Turned {
    /// The device carried its next command out.
    Served,
    /// It posted what it had.
    Posted,
    /// It rested.
    Rested,
    /// It is resting, and was not asked.
    Nothing,
    /// It was closed.
    Closed,
}

/// One turn of an open device: it carries its next command out, or without one it is stopped after the end,
/// stays at rest, or posts what it has. `taken` is the number of commands that it has taken, none of which
/// awaits its result. Where the device was not closed the next turn may follow. Takes no memory.
pub fn one_turn<D: Device, B: Board>(
    device: &mut D,
    agent: &Agent,
    poster: u8,
    taken: &mut u32,
    board: &mut B,
) -> Turned
    requires well_formed { WellFormed agent.now }
    requires agent { (B.sight board.old).agent ≡ agent.now }
    requires held { (B.sight board.old).holds poster ≡ true }
    requires ready { IsReady agent.now (B.sight board.old).seen poster taken.old }
    ensures fresh { D.fresh device.new ≡ D.fresh device.old }
    ensures turns { Turns agent.now poster taken.old result taken.new (B.sight board.old) (B.sight board.new)
        (D.meaning device.old) (D.meaning device.new) }
    ensures ready { result ≢ Turned.Closed → IsReady agent.now (B.sight board.new).seen poster taken.new }
    ensures closed { (result ≡ Turned.Closed) ↔ (is_open poster (B.sight board.new).seen ≡ false) }
    ensures dealt { (script : Script)
        → DealtSoFar agent.now poster (B.sight board.old).seen taken.old script (D.meaning device.old)
        → DealtAfter agent.now poster result (B.sight board.new).seen taken.new script (D.meaning device.new) }
    ensures scripted { (B.sight board.old).alone ≡ true
        → ScriptedTurn agent.now poster (B.sight board.old).seen taken.old (D.meaning device.old)
        (B.sight board.new).seen taken.new (D.meaning device.new) }
{
    let next = board.next_command(poster, *taken);
    do_next(next, device, agent, poster, taken, board)
}

// What the board told is done.
fn do_next<D: Device, B: Board>(
    next: Next,
    device: &mut D,
    agent: &Agent,
    poster: u8,
    taken: &mut u32,
    board: &mut B,
) -> Turned
    requires well_formed { WellFormed agent.now }
    requires agent { (B.sight board.old).agent ≡ agent.now }
    requires held { (B.sight board.old).holds poster ≡ true }
    requires ready { IsReady agent.now (B.sight board.old).seen poster taken.old }
    requires lawful { IsBoardList agent.now (B.sight board.old).seen }
    requires told { next ≡ next_of agent.now (B.sight board.old).seen poster taken.old }
    ensures fresh { D.fresh device.new ≡ D.fresh device.old }
    ensures does { TurnsBy agent.now poster taken.old next result taken.new (B.sight board.old) (B.sight board.new)
        (D.meaning device.old) (D.meaning device.new) }
{
    match next {
        Next::Command { action, asked, .. } => {
            *taken += 1;
            serve_command(device, agent, poster, *taken, action, asked, board)
        }
        Next::Ended => post_item(poster, *taken, Item::Stop, Turned::Posted, board),
        Next::Nothing { resting: true } => Turned::Nothing,
        Next::Nothing { resting: false } => idle_turn(device, agent, poster, *taken, board),
    }
}

// The item is posted, and the turn did this unless the device was closed in its place.
fn post_item<B: Board>(poster: u8, taken: u32, item: Item, done: Turned, board: &mut B) -> Turned
    requires held { (B.sight board.old).holds poster ≡ true }
    requires allowed { MayPost (B.sight board.old).agent (B.sight board.old).seen poster taken item }
    requires taking { item ≢ Item.Refused }
    ensures { PostsItem poster taken (Some item) done result (B.sight board.old) (B.sight board.new) }
{
    done_by(board.post(poster, item, taken), done)
}

// What a turn did, unless the device was closed.
fn done_by(posted: Posted, done: Turned) -> Turned
    ensures { result ≡ turned_by posted done }
{
    match posted {
        Posted::At(_) => done,
        Posted::Closed { .. } => Turned::Closed,
    }
}

// The command is carried out, and what the device answers is posted.
fn serve_command<D: Device, B: Board>(
    device: &mut D,
    agent: &Agent,
    poster: u8,
    taken: u32,
    action: u32,
    asked: bool,
    board: &mut B,
) -> Turned
    requires well_formed { WellFormed agent.now }
    requires number { action < ground_count agent.now (action_args agent.now) }
    requires held { (B.sight board.old).holds poster ≡ true }
    requires driven { IsDriven (B.sight board.old).agent (B.sight board.old).seen poster taken }
    ensures fresh { D.fresh device.new ≡ D.fresh device.old }
    ensures serves { ServesCommand agent.now poster taken action asked result (B.sight board.old) (B.sight board.new)
        (D.meaning device.old) (D.meaning device.new) }
{
    let text = action_text(agent, action);
    let served = device.serve(text.as_bytes(), asked);
    match item_of_answer(agent, action, asked, &served) {
        Some(item) => post_item(poster, taken, item, Turned::Served, board),
        None => Turned::Served,
    }
}

// What an answer is posted as: nothing where none was asked for and none came.
fn item_of_answer(agent: &Agent, action: u32, asked: bool, served: &Served) -> Option<Item>
    requires well_formed { WellFormed agent.now }
    requires number { action < ground_count agent.now (action_args agent.now) }
    ensures { (device : ℕ) → result ≡ answer_item agent.now device action asked served.now }
{
    match served {
        Served::Value(bytes) if asked => Some(item_of_value(agent, action, bytes.as_slice())),
        Served::Value(_) => Some(Item::Unreadable),
        Served::Nothing if asked => Some(Item::Silent),
        Served::Nothing => None,
    }
}

// The constant that the bytes write, of the fluent that the action's result tells.
fn item_of_value(agent: &Agent, action: u32, bytes: &[u8]) -> Item
    requires well_formed { WellFormed agent.now }
    requires number { action < ground_count agent.now (action_args agent.now) }
    ensures { (device : ℕ) → result ≡ item_of_sensed agent.now device (fluent_sensed agent.now action) bytes.now }
{
    let Some(sort) = sort_sensed(agent, action) else {
        return Item::Unreadable;
    };
    match read_constant(agent, sort, bytes) {
        Some(value) => Item::Value(value),
        None => Item::Unreadable,
    }
}

// The sort of the fluent that the action's result tells.
fn sort_sensed(agent: &Agent, action: u32) -> Option<u32>
    requires well_formed { WellFormed agent.now }
    requires number { action < ground_count agent.now (action_args agent.now) }
    ensures { result ≡ option_map (fluent_sort agent.now) (fluent_sensed agent.now action) }
{
    let item = action_of(agent, action).item;
    match sense_for(agent.senses.as_slice(), item) {
        Some(sense) => Some(agent.fluents.as_slice()[sense.fluent as usize].sort),
        None => None,
    }
}

// Without a command the device posts what it has.
fn idle_turn<D: Device, B: Board>(
    device: &mut D,
    agent: &Agent,
    poster: u8,
    taken: u32,
    board: &mut B,
) -> Turned
    requires well_formed { WellFormed agent.now }
    requires held { (B.sight board.old).holds poster ≡ true }
    requires driven { IsDriven (B.sight board.old).agent (B.sight board.old).seen poster taken }
    ensures fresh { D.fresh device.new ≡ D.fresh device.old }
    ensures idles { FillsTime agent.now poster taken result (B.sight board.old) (B.sight board.new)
        (D.meaning device.old) (D.meaning device.new) }
{
    let idle = device.idle();
    let item = item_of_idle(agent, &idle);
    let done = done_by_idling(&idle);
    post_item(poster, taken, item, done, board)
}

fn done_by_idling(idle: &Idle) -> Turned
    ensures { result ≡ idle_turned idle.now }
{
    match idle {
        Idle::Rest => Turned::Rested,
        Idle::Post(_) => Turned::Posted,
        Idle::Close => Turned::Posted,
    }
}

fn item_of_idle(agent: &Agent, idle: &Idle) -> Item
    requires { WellFormed agent.now }
    ensures { result ≡ idle_item agent.now idle.now }
{
    match idle {
        Idle::Post(bytes) => match read_action(agent, bytes.as_slice()) {
            Some(action) => Item::Exo(action),
            None => Item::Unreadable,
        },
        Idle::Rest => Item::Rest,
        Idle::Close => Item::Close,
    }
}
