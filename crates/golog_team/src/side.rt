//! One side of a team: an agent's program, its journal, and what it has of the link.
ghost use Rattle.std.specs.Prelude.{◌≡◌, ◌≢◌, ◌⊎◌, ◌≤◌, [], true, false, length as length_of};
ghost use Rattle.golog_semantics.specs.Journal.{has_end, longest};
ghost use Rattle.golog_semantics.specs.WellFormed.{WellFormed};
ghost use Rattle.golog_team.specs.Steps.{Acts, Steps, IsClear, Waits, HasDone};
ghost use Rattle.golog_team.specs.Notes.{ends};
ghost use Rattle.golog_team.specs.Keeping.{MayTeam, IsOver};
ghost use Rattle.golog_team.specs.Wires.{HasMet};
ghost use Rattle.golog_team.specs.Played.{nothing_done};
ghost use Rattle.golog_team.specs.Standing.{station_of, IsSide, SameSide, IsSameBut, ArePair};

use crate::did::Did;
use crate::note::Note;
use crate::posting::{DEVICE, gather, lead_turn, post, take_up, untaken};
use crate::reading::{read_on, say};
use crate::told::Told;
use crate::wire::Wire;
use golog_journal::{AgentFacts, Item, Journal, Lead};
use golog_tree::Agent;

/// One side of a team, whose agent's one device is the agent of the other side.
pub struct Side<'a, L: Lead, W: Wire> {
    side: u8,
    agent: &'a Agent,
    /// The agent of the other side, whose actions its notes send, and the facts of these.
    other: &'a Agent,
    facts: &'a AgentFacts,
    journal: Journal,
    lead: L,
    wire: W,
    /// What it has read of the notes.
    told: Told,
    /// How many commands it has taken and sent.
    taken: u32,
    /// Whether its program has ended.
    ended: bool,
}

impl<'a, L: Lead, W: Wire> Side<'a, L, W> {
    /// A side that has done nothing yet. It takes no memory.
    pub fn new(
        side: u8,
        agent: &'a Agent,
        other: &'a Agent,
        facts: &'a AgentFacts,
        journal: Journal,
        lead: L,
        wire: W,
    ) -> Side<'a, L, W>
        requires formed { WellFormed agent.now × WellFormed other.now }
        requires may { MayTeam agent.now other.now side (L.mind lead).waits }
        requires facts { facts.now ≡ other.now }
        requires journal { journal ≡ record { agent = agent.now; entries = [] } }
        requires lead { ((L.mind lead).agent ≡ agent.now) × ((L.mind lead).list ≡ []) }
        requires wire { ((W.view wire).side ≡ side) × ((W.view wire).seen ≡ []) }
        ensures parts { (result.side ≡ side) × (result.agent.now ≡ agent.now) × (result.other.now ≡ other.now)
            × (result.lead ≡ lead) × (result.wire ≡ wire) }
        ensures side { IsSide L.mind W.view result }
        ensures new { station_of L.mind W.view result ≡ nothing_done }
    {
        Side {
            side,
            agent,
            other,
            facts,
            journal,
            lead,
            wire,
            told: Told::new(side),
            taken: 0,
            ended: false,
        }
    }

    /// Does the first of these that it can, at the notes that there are: takes up what the other side sends or that it
    /// has ended; sends a command; gives its program a turn, and where that adds nothing rests, waits or says that it
    /// waits; stops its device; says that it has ended. It takes no memory.
    pub fn step(&mut self) -> Did
        requires { IsSide L.mind W.view self.old }
        ensures side { IsSide L.mind W.view self.new }
        ensures same { SameSide L.mind W.view self.old self.new }
        ensures stands { L.stands self.old.lead → L.stands self.new.lead }
        ensures steps { Steps self.old.agent.now self.old.other.now self.old.side (L.mind self.old.lead).waits
            (station_of L.mind W.view self.old) (station_of L.mind W.view self.new) result }
    {
        match read_on(&mut self.wire, self.side, &mut self.told) {
            Some(note) => {
                take_up(
                    &mut self.journal,
                    self.agent,
                    self.other,
                    self.facts,
                    self.taken,
                    note,
                );
                Did::Busy
            }
            None => self.act(),
        }
    }

    // What a side does that has read all.
    fn act(&mut self) -> Did
        requires side { IsSide L.mind W.view self.old }
        requires read { (station_of L.mind W.view self.old).unread ≡ [] }
        ensures side { IsSide L.mind W.view self.new }
        ensures same { SameSide L.mind W.view self.old self.new }
        ensures stands { L.stands self.old.lead → L.stands self.new.lead }
        ensures acts { Acts self.old.agent.now self.old.other.now self.old.side (L.mind self.old.lead).waits
            (station_of L.mind W.view self.old) (station_of L.mind W.view self.new) result }
    {
        match untaken(&mut self.journal, self.taken) {
            Some(action) => {
                self.wire.put(Note::Send { action });
                self.taken += 1;
                Did::Busy
            }
            None => self.go_on(),
        }
    }

    // What it does without a command.
    fn go_on(&mut self) -> Did
        requires side { IsSide L.mind W.view self.old }
        requires clear { IsClear self.old.agent.now self.old.other.now self.old.side (L.mind self.old.lead).waits
            (station_of L.mind W.view self.old) }
        ensures side { IsSide L.mind W.view self.new }
        ensures same { SameSide L.mind W.view self.old self.new }
        ensures stands { L.stands self.old.lead → L.stands self.new.lead }
        ensures acts { Acts self.old.agent.now self.old.other.now self.old.side (L.mind self.old.lead).waits
            (station_of L.mind W.view self.old) (station_of L.mind W.view self.new) result }
    {
        let ended = self.ended;
        if ended { self.stop() } else { self.lead_on() }
    }

    // Where its program has ended, it stops its device.
    fn stop(&mut self) -> Did
        requires side { IsSide L.mind W.view self.old }
        requires clear { IsClear self.old.agent.now self.old.other.now self.old.side (L.mind self.old.lead).waits
            (station_of L.mind W.view self.old) }
        requires finished { has_end self.old.journal.entries ≡ true }
        ensures side { IsSide L.mind W.view self.new }
        ensures same { SameSide L.mind W.view self.old self.new }
        ensures stands { L.stands self.old.lead → L.stands self.new.lead }
        ensures acts { Acts self.old.agent.now self.old.other.now self.old.side (L.mind self.old.lead).waits
            (station_of L.mind W.view self.old) (station_of L.mind W.view self.new) result }
    {
        let open = self.journal.is_open(DEVICE);
        if open {
            post(&mut self.journal, Item::Stop, self.taken);
            Did::Busy
        } else {
            self.end()
        }
    }

    // Where its device is closed too, it says that it has ended.
    fn end(&mut self) -> Did
        requires side { IsSide L.mind W.view self.old }
        requires done { HasDone self.old.agent.now self.old.other.now self.old.side (L.mind self.old.lead).waits
            (station_of L.mind W.view self.old) }
        ensures side { IsSide L.mind W.view self.new }
        ensures same { SameSide L.mind W.view self.old self.new }
        ensures stands { L.stands self.old.lead → L.stands self.new.lead }
        ensures acts { Acts self.old.agent.now self.old.other.now self.old.side (L.mind self.old.lead).waits
            (station_of L.mind W.view self.old) (station_of L.mind W.view self.new) result }
    {
        let over = self.told.over;
        if over {
            return Did::Over;
        }
        if say(&mut self.wire, self.side, &mut self.told, Note::Ended) {
            Did::Over
        } else {
            Did::Busy
        }
    }

    // Where its program has not ended, it gives it a turn.
    fn lead_on(&mut self) -> Did
        requires side { IsSide L.mind W.view self.old }
        requires clear { IsClear self.old.agent.now self.old.other.now self.old.side (L.mind self.old.lead).waits
            (station_of L.mind W.view self.old) }
        requires goes_on { has_end self.old.journal.entries ≡ false }
        ensures side { IsSide L.mind W.view self.new }
        ensures same { SameSide L.mind W.view self.old self.new }
        ensures stands { L.stands self.old.lead → L.stands self.new.lead }
        ensures acts { Acts self.old.agent.now self.old.other.now self.old.side (L.mind self.old.lead).waits
            (station_of L.mind W.view self.old) (station_of L.mind W.view self.new) result }
    {
        let before = self.journal.len();
        self.ended = lead_turn(&mut self.lead, &mut self.journal);
        let after = self.journal.len();
        if after == before {
            self.wait(before)
        } else {
            Did::Busy
        }
    }

    // Where its program waits, after so many entries, it says so.
    fn wait(&mut self, length: u32) -> Did
        requires side { IsSide L.mind W.view self.old }
        requires waits { Waits self.old.agent.now self.old.other.now self.old.side (L.mind self.old.lead).waits
            (station_of L.mind W.view self.old) }
        requires entries { length ≡ length_of self.old.journal.entries }
        ensures side { IsSide L.mind W.view self.new }
        ensures same { SameSide L.mind W.view self.old self.new }
        ensures stands { L.stands self.old.lead → L.stands self.new.lead }
        ensures acts { Acts self.old.agent.now self.old.other.now self.old.side (L.mind self.old.lead).waits
            (station_of L.mind W.view self.old) (station_of L.mind W.view self.new) result }
    {
        let own = self.told.own_waits;
        if own {
            self.rest()
        } else {
            let note = Note::Waiting { length };
            let _put = say(&mut self.wire, self.side, &mut self.told, note);
            Did::Busy
        }
    }

    // Where it has said so, it rests where the other side waits too.
    fn rest(&mut self) -> Did
        requires side { IsSide L.mind W.view self.old }
        requires waits { Waits self.old.agent.now self.old.other.now self.old.side (L.mind self.old.lead).waits
            (station_of L.mind W.view self.old) }
        requires said { self.old.told.own_waits ≡ true }
        ensures side { IsSide L.mind W.view self.new }
        ensures same { SameSide L.mind W.view self.old self.new }
        ensures stands { L.stands self.old.lead → L.stands self.new.lead }
        ensures acts { Acts self.old.agent.now self.old.other.now self.old.side (L.mind self.old.lead).waits
            (station_of L.mind W.view self.old) (station_of L.mind W.view self.new) result }
    {
        let other = self.told.other_waits;
        if other {
            post(&mut self.journal, Item::Rest, self.taken);
            Did::Busy
        } else {
            Did::Idle
        }
    }

    /// Whether it has ended, and has said so.
    pub(crate) fn is_over(&self) -> bool
        requires { IsSide L.mind W.view self.now }
        ensures over { result ≡ true → IsOver self.now.side (W.view self.now.wire).seen self.now.journal.entries }
        ensures told { result ≡ true → ends self.now.side (W.view self.now.wire).seen ≢ 0 }
        ensures goes_on { result ≡ false → ends self.now.side (W.view self.now.wire).seen ≡ 0 }
    {
        self.told.over
    }

    /// Both sides have then seen the same notes.
    pub(crate) fn meet<M: Lead>(&mut self, other: &mut Side<'a, M, W>)
        requires { ArePair L.mind M.mind W.view self.old other.old }
        ensures pair { ArePair L.mind M.mind W.view self.new other.new }
        ensures one { IsSameBut L.mind W.view self.old self.new × HasMet (W.view self.old.wire) (W.view self.new.wire) }
        ensures other { IsSameBut M.mind W.view other.old other.new × HasMet (W.view other.old.wire) (W.view other.new.wire) }
        ensures same { (W.view other.new.wire).seen ≡ (W.view self.new.wire).seen }
        ensures all { ((W.view self.new.wire).seen ≡ (W.view self.old.wire).seen)
            ⊎ ((W.view self.new.wire).seen ≡ (W.view other.old.wire).seen) }
    {
        self.wire.meet(&mut other.wire);
    }

    /// A step, and then sleep where it could do nothing.
    pub(crate) fn step_or_sleep(&mut self)
        requires { IsSide L.mind W.view self.old }
        ensures side { IsSide L.mind W.view self.new }
        ensures same { SameSide L.mind W.view self.old self.new }
        ensures stands { L.stands self.old.lead → L.stands self.new.lead }
    {
        let heard = self.wire.heard();
        match self.step() {
            Did::Idle => self.wire.sleep(heard),
            Did::Busy | Did::Over => {}
        }
    }

    /// Its program copies what it lacks of the journal.
    pub(crate) fn gather(&mut self)
        requires { IsSide L.mind W.view self.old }
        ensures side { IsSide L.mind W.view self.new }
        ensures same { SameSide L.mind W.view self.old self.new }
        ensures stands { L.stands self.old.lead → L.stands self.new.lead }
        ensures whole { (L.mind self.new.lead).list ≡ self.new.journal.entries }
        ensures kept { (self.new.journal ≡ self.old.journal) × (self.new.wire ≡ self.old.wire) }
        ensures station { station_of L.mind W.view self.new ≡ station_of L.mind W.view self.old }
        ensures short { length_of self.new.journal.entries ≤ longest }
    {
        gather(&mut self.lead, &mut self.journal);
    }

    /// The lead, the journal and what the side has of the link, handed back.
    pub fn finish(self) -> (L, Journal, W)
        ensures { (result.0 ≡ self.entry.lead) × (result.1 ≡ self.entry.journal) × (result.2 ≡ self.entry.wire) }
    {
        let Side {
            side: _,
            agent: _,
            other: _,
            facts: _,
            journal,
            lead,
            wire,
            told: _,
            taken: _,
            ended: _,
        } = self;
        (lead, journal, wire)
    }
}
