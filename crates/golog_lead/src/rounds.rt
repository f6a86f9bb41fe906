//! `run_inline`: the rounds in which each open device has a turn, and then the lead.
ghost use Rattle.std.specs.Prelude.{◌≡◌, ◌≤◌, ◌<◌, None, true, false, length, slice_get};
ghost use Rattle.golog_semantics.specs.Journal.{is_open, longest};
ghost use Rattle.golog_semantics.specs.Online.{is_whole};
ghost use Rattle.golog_semantics.specs.WellFormed.{WellFormed};
ghost use Rattle.golog_journal.specs.Boards.{IsBoardList};
ghost use Rattle.golog_journal.specs.Leading.{IsBehind, SameMind};
ghost use Rattle.golog_journal.specs.Taken.{IsReady};
ghost use Rattle.golog_device.specs.Turns.{SameBoard};
ghost use Rattle.golog_device.specs.Slots.{standings, OnlySlot};
ghost use Rattle.golog_lead.specs.Moments.{moment, MayGoOn, TurnMade, DeviceMade, TurnsMade, RoundMade};
ghost use Rattle.golog_lead.specs.Rounds.{AreReady, RunsToEnd};

use crate::RoundLead;
use golog_device::{Device, one_turn};
use golog_journal::{Board, DEVICES};
use golog_tree::Agent;

/// Runs the program of an agent over a board to which no one else adds entries, until the program has ended
/// and each device is closed: in each round each open device in order has one turn, and then the program
/// has one. The boxes that no device needs stay as they are. Returns where the calls of the devices and of
/// the board do. Takes memory in the program's turns alone; where it is wanted the program ends with
/// `Memory`.
pub fn run_inline<L: RoundLead, D: Device, B: Board>(
    lead: &mut L,
    devices: &mut [D],
    agent: &Agent,
    board: &mut B,
)
    requires agent { (L.mind lead.old).agent ≡ agent.now }
    requires board { (B.sight board.old).agent ≡ agent.now }
    requires alone { (B.sight board.old).alone ≡ true }
    requires lawful { IsBoardList agent.now (B.sight board.old).seen }
    requires behind { IsBehind (L.mind lead.old).list (B.sight board.old).seen }
    requires boxes { length agent.now.devices ≤ length devices.old }
    requires ready { AreReady agent.now (B.sight board.old).seen }
    ensures same { SameMind (L.mind lead.old) (L.mind lead.new) }
    ensures stands { L.stands lead.old → L.stands lead.new }
    ensures same_board { SameBoard (B.sight board.old) (B.sight board.new) }
    ensures lawful { IsBoardList agent.now (B.sight board.new).seen }
    ensures whole { (L.mind lead.new).list ≡ (B.sight board.new).seen }
    ensures short { length (B.sight board.new).seen ≤ longest }
    ensures ran { RunsToEnd (L.keeps (L.mind lead.old).bounds agent.now) (L.alone (L.mind lead.old).bounds agent.now) L.short
        agent.now (B.sight board.old).seen (B.sight board.new).seen
        (standings D.fresh D.meaning devices.old) (standings D.fresh D.meaning devices.new) }
{
    lead.gather(board);
    lead.keeps_rules();
    let mut taken = [0; DEVICES];
    while !is_over(lead, agent) {
        round(lead, devices, agent, &mut taken, board);
    }
    lead.keeps_rules();
}

// Whether the program has ended and each device is closed.
fn is_over<L: RoundLead>(lead: &L, agent: &Agent) -> bool
    requires well_formed { WellFormed agent.now }
    requires agent { (L.mind lead.now).agent ≡ agent.now }
    ensures { result ≡ is_whole agent.now (L.mind lead.now).list }
{
    for device in 0..agent.devices.len() {
        if lead.is_open(device as u8) {
            return false;
        }
    }
    lead.has_ended()
}

// Each open device in order has one turn, and then the program has one.
fn round<L: RoundLead, D: Device, B: Board>(
    lead: &mut L,
    devices: &mut [D],
    agent: &Agent,
    taken: &mut [u32; DEVICES],
    board: &mut B,
)
    requires well_formed { WellFormed agent.now }
    requires agent { (L.mind lead.old).agent ≡ agent.now }
    requires board { (B.sight board.old).agent ≡ agent.now }
    requires alone { (B.sight board.old).alone ≡ true }
    requires lawful { IsBoardList agent.now (B.sight board.old).seen }
    requires whole { (L.mind lead.old).list ≡ (B.sight board.old).seen }
    requires boxes { length agent.now.devices ≤ length devices.old }
    requires on { MayGoOn agent.now (B.sight board.old).seen taken.old }
    requires over { is_whole agent.now (B.sight board.old).seen ≡ false }
    ensures same { SameMind (L.mind lead.old) (L.mind lead.new) }
    ensures stands { L.stands lead.old → L.stands lead.new }
    ensures same_board { SameBoard (B.sight board.old) (B.sight board.new) }
    ensures lawful { IsBoardList agent.now (B.sight board.new).seen }
    ensures whole { (L.mind lead.new).list ≡ (B.sight board.new).seen }
    ensures short { length (L.mind lead.new).list ≤ longest }
    ensures made { RoundMade agent.now (L.alone (L.mind lead.old).bounds agent.now) L.short
        (moment (B.sight board.old).seen taken.old (standings D.fresh D.meaning devices.old))
        (moment (B.sight board.new).seen taken.new (standings D.fresh D.meaning devices.new)) }
{
    turns(lead, devices, agent, taken, board);
    lead.step(board);
    lead.keeps_rules();
}

// Each open device in order has one turn.
fn turns<L: RoundLead, D: Device, B: Board>(
    lead: &L,
    devices: &mut [D],
    agent: &Agent,
    taken: &mut [u32; DEVICES],
    board: &mut B,
)
    requires well_formed { WellFormed agent.now }
    requires agent { (L.mind lead.now).agent ≡ agent.now }
    requires board { (B.sight board.old).agent ≡ agent.now }
    requires alone { (B.sight board.old).alone ≡ true }
    requires lawful { IsBoardList agent.now (B.sight board.old).seen }
    requires whole { (L.mind lead.now).list ≡ (B.sight board.old).seen }
    requires boxes { length agent.now.devices ≤ length devices.old }
    requires on { MayGoOn agent.now (B.sight board.old).seen taken.old }
    ensures same_board { SameBoard (B.sight board.old) (B.sight board.new) }
    ensures lawful { IsBoardList agent.now (B.sight board.new).seen }
    ensures made { TurnsMade agent.now (length agent.now.devices)
        (moment (B.sight board.old).seen taken.old (standings D.fresh D.meaning devices.old))
        (moment (B.sight board.new).seen taken.new (standings D.fresh D.meaning devices.new)) }
{
    for slot in 0..agent.devices.len() {
        if lead.is_open(slot as u8) {
            turn_at(devices, agent, slot, &mut taken[slot], board);
        }
    }
}

// One turn of the open device in a slot.
fn turn_at<D: Device, B: Board>(
    devices: &mut [D],
    agent: &Agent,
    slot: usize,
    taken: &mut u32,
    board: &mut B,
)
    requires well_formed { WellFormed agent.now }
    requires board { (B.sight board.old).agent ≡ agent.now }
    requires alone { (B.sight board.old).alone ≡ true }
    requires lawful { IsBoardList agent.now (B.sight board.old).seen }
    requires within { slot < length devices.old }
    requires ready { IsReady agent.now (B.sight board.old).seen slot taken.old }
    ensures same_board { SameBoard (B.sight board.old) (B.sight board.new) }
    ensures lawful { IsBoardList agent.now (B.sight board.new).seen }
    ensures made { TurnMade agent.now slot
        (B.sight board.old).seen taken.old (B.sight board.new).seen taken.new }
    ensures device { OnlySlot slot
        (DeviceMade agent.now slot (B.sight board.old).seen taken.old (B.sight board.new).seen taken.new)
        (standings D.fresh D.meaning devices.old) (standings D.fresh D.meaning devices.new) }
{
    one_turn(&mut devices[slot], agent, slot as u8, taken, board);
}
