//! Both sides of a team, beside each other or in turn, until both have ended.
ghost use Rattle.std.specs.Prelude.{◌≡◌, true, false};
ghost use Rattle.golog_team.specs.Keeping.{IsOver};
ghost use Rattle.golog_team.specs.Notes.{ends};
ghost use Rattle.golog_team.specs.Linked.{IsLinked};
ghost use Rattle.golog_team.specs.Rounds.{HasTurn, Hears, Round, Rounds};
ghost use Rattle.golog_team.specs.Standing.{station_of, SameSide, HasGone, HasRun, ArePair};

use crate::goes::go_beside;
use crate::side::Side;
use crate::wire::Wire;
use golog_journal::Lead;
use std::sync::Wait;
use std::thread::Threads;

// A side has a step. Both have then seen the same notes.
fn step_and_meet<'a, L: Lead, M: Lead, W: Wire>(
    one: &mut Side<'a, L, W>,
    other: &mut Side<'a, M, W>,
)
    requires pair { ArePair L.mind M.mind W.view one.old other.old }
    requires met { (W.view other.old.wire).seen ≡ (W.view one.old.wire).seen }
    requires goes_on { ends one.old.side (W.view one.old.wire).seen ≡ 0 }
    ensures pair { ArePair L.mind M.mind W.view one.new other.new }
    ensures met { (W.view other.new.wire).seen ≡ (W.view one.new.wire).seen }
    ensures same { SameSide L.mind W.view one.old one.new × SameSide M.mind W.view other.old other.new }
    ensures stands { (L.stands one.old.lead → L.stands one.new.lead) × (M.stands other.old.lead → M.stands other.new.lead) }
    ensures turn { HasTurn one.old.agent.now one.old.other.now one.old.side (L.mind one.old.lead).waits
        (station_of L.mind W.view one.old) (station_of L.mind W.view one.new) }
    ensures hears { Hears (station_of M.mind W.view other.old) (station_of M.mind W.view other.new) (W.view one.new.wire).seen }
{
    one.step();
    one.meet(other);
}

// A side has a step, unless it is over. Both have then seen the same notes.
fn turn<'a, L: Lead, M: Lead, W: Wire>(one: &mut Side<'a, L, W>, other: &mut Side<'a, M, W>)
    requires pair { ArePair L.mind M.mind W.view one.old other.old }
    requires met { (W.view other.old.wire).seen ≡ (W.view one.old.wire).seen }
    ensures pair { ArePair L.mind M.mind W.view one.new other.new }
    ensures met { (W.view other.new.wire).seen ≡ (W.view one.new.wire).seen }
    ensures same { SameSide L.mind W.view one.old one.new × SameSide M.mind W.view other.old other.new }
    ensures stands { (L.stands one.old.lead → L.stands one.new.lead) × (M.stands other.old.lead → M.stands other.new.lead) }
    ensures turn { HasTurn one.old.agent.now one.old.other.now one.old.side (L.mind one.old.lead).waits
        (station_of L.mind W.view one.old) (station_of L.mind W.view one.new) }
    ensures hears { Hears (station_of M.mind W.view other.old) (station_of M.mind W.view other.new) (W.view one.new.wire).seen }
{
    if one.is_over() {
        return;
    }
    step_and_meet(one, other);
}

// Both have a turn, one before the other.
fn round<'a, L: Lead, M: Lead, W: Wire>(one: &mut Side<'a, L, W>, other: &mut Side<'a, M, W>)
    requires pair { ArePair L.mind M.mind W.view one.old other.old }
    requires met { (W.view other.old.wire).seen ≡ (W.view one.old.wire).seen }
    ensures pair { ArePair L.mind M.mind W.view one.new other.new }
    ensures met { (W.view other.new.wire).seen ≡ (W.view one.new.wire).seen }
    ensures same { SameSide L.mind W.view one.old one.new × SameSide M.mind W.view other.old other.new }
    ensures stands { (L.stands one.old.lead → L.stands one.new.lead) × (M.stands other.old.lead → M.stands other.new.lead) }
    ensures round { Round one.old.agent.now one.old.other.now one.old.side (L.mind one.old.lead).waits (M.mind other.old.lead).waits
        (station_of L.mind W.view one.old) (station_of M.mind W.view other.old)
        (station_of L.mind W.view one.new) (station_of M.mind W.view other.new) }
{
    turn(one, other);
    turn(other, one);
}

// Whether both are over.
fn are_over<'a, L: Lead, M: Lead, W: Wire>(one: &Side<'a, L, W>, other: &Side<'a, M, W>) -> bool
    requires { ArePair L.mind M.mind W.view one.now other.now }
    ensures { result ≡ true → IsOver one.now.side (W.view one.now.wire).seen one.now.journal.entries
        × IsOver other.now.side (W.view other.now.wire).seen other.now.journal.entries }
{
    let first = one.is_over();
    let second = other.is_over();
    first && second
}

// Both have their turns until both are over.
fn go_in_turn<'a, R: Wait, L: Lead, M: Lead, W: Wire>(
    rt: &R,
    first: &mut Side<'a, L, W>,
    second: &mut Side<'a, M, W>,
)
    requires { ArePair L.mind M.mind W.view first.old second.old }
    ensures first { HasGone L.mind W.view L.stands first.old first.new }
    ensures second { HasGone M.mind W.view M.stands second.old second.new }
    ensures pair { ArePair L.mind M.mind W.view first.new second.new }
    ensures met { (W.view second.new.wire).seen ≡ (W.view first.new.wire).seen }
    ensures rounds { Rounds first.old.agent.now first.old.other.now first.old.side (L.mind first.old.lead).waits
        (M.mind second.old.lead).waits (station_of L.mind W.view first.old) (station_of M.mind W.view second.old)
        (station_of L.mind W.view first.new) (station_of M.mind W.view second.new) }
{
    first.meet(second);
    for _ in rt.forever() {
        if are_over(first, second) {
            return;
        }
        round(first, second);
    }
    unreachable!()
}

// Both go on beside each other until both are over. Both have then seen the same notes.
fn go_and_meet<'a, R: Threads + Wait + Sync, L: Lead, M: Lead + Send, W: Wire + Send>(
    rt: &R,
    first: &mut Side<'a, L, W>,
    second: &mut Side<'a, M, W>,
)
    requires { ArePair L.mind M.mind W.view first.old second.old }
    ensures first { HasGone L.mind W.view L.stands first.old first.new }
    ensures second { HasGone M.mind W.view M.stands second.old second.new }
    ensures pair { ArePair L.mind M.mind W.view first.new second.new }
    ensures met { (W.view second.new.wire).seen ≡ (W.view first.new.wire).seen }
{
    go_beside(rt, first, second);
    first.meet(second);
}

// Both go on, beside each other or in turn.
fn go_both<'a, R: Threads + Wait + Sync, L: Lead, M: Lead + Send, W: Wire + Send>(
    rt: &R,
    first: &mut Side<'a, L, W>,
    second: &mut Side<'a, M, W>,
    beside: bool,
)
    requires { ArePair L.mind M.mind W.view first.old second.old }
    ensures first { HasGone L.mind W.view L.stands first.old first.new }
    ensures second { HasGone M.mind W.view M.stands second.old second.new }
    ensures pair { ArePair L.mind M.mind W.view first.new second.new }
    ensures met { (W.view second.new.wire).seen ≡ (W.view first.new.wire).seen }
    ensures in_turn { beside ≡ false
        → Rounds first.old.agent.now first.old.other.now first.old.side (L.mind first.old.lead).waits
        (M.mind second.old.lead).waits (station_of L.mind W.view first.old) (station_of M.mind W.view second.old)
        (station_of L.mind W.view first.new) (station_of M.mind W.view second.new) }
{
    if beside {
        go_and_meet(rt, first, second);
    } else {
        go_in_turn(rt, first, second);
    }
}

/// Gives both sides their steps until each is over, beside each other, the second on a thread of its own, or one step of
/// each in turn, the first before the second. A side that can do nothing sleeps until the other puts a note. Then both
/// have seen the same notes, and each program has copied its whole journal. It takes no memory, and may wait for ever, as
/// where no thread can be made.
pub fn run_team<'a, R: Threads + Wait + Sync, L: Lead, M: Lead + Send, W: Wire + Send>(
    rt: &R,
    first: &mut Side<'a, L, W>,
    second: &mut Side<'a, M, W>,
    beside: bool,
)
    requires pair { ArePair L.mind M.mind W.view first.old second.old }
    ensures first { HasRun L.mind W.view L.stands first.old first.new }
    ensures second { HasRun M.mind W.view M.stands second.old second.new }
    ensures met { (W.view second.new.wire).seen ≡ (W.view first.new.wire).seen }
    ensures linked { IsLinked first.old.agent.now first.old.other.now first.old.side (L.mind first.old.lead).waits
        (W.view first.new.wire).seen first.new.journal.entries
        × IsLinked second.old.agent.now second.old.other.now second.old.side (M.mind second.old.lead).waits
        (W.view second.new.wire).seen second.new.journal.entries }
    ensures in_turn { beside ≡ false
        → Rounds first.old.agent.now first.old.other.now first.old.side (L.mind first.old.lead).waits
        (M.mind second.old.lead).waits (station_of L.mind W.view first.old) (station_of M.mind W.view second.old)
        (station_of L.mind W.view first.new) (station_of M.mind W.view second.new) }
{
    go_both(rt, first, second, beside);
    first.gather();
    second.gather();
}
