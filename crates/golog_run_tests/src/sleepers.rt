// A test of fifty runs over devices that sleep in each call, as chance has it: each journal is
// replayed.
use crate::asserting::same;
use crate::calls::{Call, RUN_ON_THREADS, Setting, called};
use crate::slots::{Maker, threaded_with};
use golog_base::NoMemory;
use golog_device::{Begun, Device, Idle, Served};
use golog_script::ScriptDevice;
use std::alloc::Global;
use std::sync::Wait;
use std::thread;
use std::thread::Threads;
use std::time::{Clock, Duration};

/// How many runs there are.
const RUNS: u64 = 50;

/// The longest sleep in a call, in microseconds.
const LONGEST: u64 = 300;

/// A device that follows its script, and sleeps first in each call.
#[derive(Drop)]
struct Sleeper<'a, C: Clock + Drop> {
    device: ScriptDevice,
    clock: &'a C,
    chance: u64,
}

impl<C: Clock + Drop> Sleeper<'_, C> {
    ghost use Rattle.std.specs.Prelude.{◌≡◌};

    // Sleeps for some time, by the chance.
    fn sleep(&mut self)
        ensures { self.new.device ≡ self.old.device }
    {
        self.chance = self
            .chance
            .wrapping_mul(6_364_136_223_846_793_005)
            .wrapping_add(1_442_695_040_888_963_407);
        let micros = (self.chance >> 33) % LONGEST;
        thread::sleep(self.clock, Duration::from_micros(micros));
    }
}

impl<C: Clock + Drop> Device for Sleeper<'_, C> {
    ghost use Rattle.golog_script.specs.Meanings.{is_fresh, meaning_of};

    ghost fresh = { λ sleeper. is_fresh sleeper.device };

    ghost meaning = { λ sleeper. meaning_of sleeper.device };

    fn begin(&mut self, alloc: Global, name: &[u8], script: &[u8]) -> Begun {
        self.device.begin(alloc, name, script)
    }

    fn serve(&mut self, action: &[u8], asked: bool) -> Served {
        self.sleep();
        self.device.serve(action, asked)
    }

    fn idle(&mut self) -> Idle {
        self.sleep();
        self.device.idle()
    }
}

/// Sleepers that begin with different chances.
#[derive(Drop)]
struct Sleepers<'a, C: Clock + Drop> {
    clock: &'a C,
    chance: u64,
}

impl<'a, C: Clock + Drop> Maker<Sleeper<'a, C>> for Sleepers<'a, C> {
    fn device_at(&self, alloc: Global, slot: usize) -> Result<Sleeper<'a, C>, NoMemory> {
        let device = ScriptDevice::new(alloc)?;
        Ok(Sleeper {
            device,
            clock: self.clock,
            chance: self.chance.wrapping_mul(16).wrapping_add(slot as u64),
        })
    }
}

/// Agents whose runs depend on the times of their devices, each with the devices' scripts.
const PLAYS: [(&[u8], &[u8]); 7] = [
    // A wind may slam a door before it has answered, or after.
    (
        b"(agent (device wind) (device door) (fluent opened () bool)
            (action look () door) (action go ()) (action knock ()) (exo calm () wind) (exo slam () wind)
            (senses (look) (opened)) (causes (slam) (opened) false)
            (main (seq (act look) (if (opened) (act go) (act knock)))))",
        br#"[{"name":"wind","idle":["calm","slam"]},{"name":"door","answers":["true"],"idle":["rest"]}]"#,
    ),
    // Whether it slams it or not, this one doesn't answer.
    (
        b"(agent (device wind) (device door) (fluent opened () bool) (action look () door) (exo slam () wind)
            (senses (look) (opened)) (causes (slam) (opened) false)
            (main (seq (act look) (test (not (opened))))))",
        br#"[{"name":"wind","idle":["slam","slam"]},{"name":"door","idle":["rest"]}]"#,
    ),
    // Two doors are asked beside each other, and either may answer first. One that is open is enough to go on.
    (
        b"(agent (device front) (device back) (fluent in_front () bool) (fluent behind () bool)
            (action ask_front () front) (action ask_back () back) (action go ()) (action knock ())
            (senses (ask_front) (in_front) later) (senses (ask_back) (behind) later)
            (main (seq (act ask_front) (act ask_back) (if (or (in_front) (behind)) (act go) (act knock)))))",
        br#"[{"name":"front","answers":["true"],"idle":["rest"]},
            {"name":"back","answers":["false"],"idle":["rest"]}]"#,
    ),
    // A way may be blocked before a plan, during it or behind it.
    (
        b"(agent (device world) (sort place a b c) (fluent blocked (place) bool false)
            (action go (place)) (exo calm () world) (exo block (place) world)
            (poss (go x) (not (blocked x))) (causes (block x) (blocked x) true)
            (main (search 4 1000 (seq (act go a) (choice (act go b) (act go c))))))",
        br#"[{"name":"world","idle":["calm","block(b)","rest"]}]"#,
    ),
    // Claims go through an office beside each other.
    (
        b"(agent (sort claim 1 3) (device post) (device clerk)
            (fluent waiting (claim) bool false) (fluent sound (claim) bool) (fluent done (claim) bool false)
            (action judge (claim) clerk) (action pay (claim)) (action refuse (claim)) (exo arrive (claim) post)
            (senses (judge c) (sound c)) (poss (judge c) (waiting c))
            (causes (arrive c) (waiting c) true) (causes (judge c) (waiting c) false)
            (causes (pay c) (done c) true) (causes (refuse c) (done c) true)
            (main (seq
              (cstar (pick (c claim) (seq (act judge c) (if (sound c) (act pay c) (act refuse c)))))
              (test (all (c claim) (done c))))))",
        br#"[{"name":"post","idle":["arrive(2)","arrive(1)","arrive(3)"]},
            {"name":"clerk","answers":["true","false","true"],"idle":["rest","rest","rest","rest"]}]"#,
    ),
    // A bell rings the hours that it doesn't miss.
    (
        b"(agent (sort hour 0 3) (device clock) (device bell)
            (fluent time () hour 0) (fluent rung (hour) bool false)
            (action ring (hour) bell) (exo strike (hour) clock)
            (causes (strike h) (time) h) (causes (ring h) (rung h) true)
            (main (seq (act start_interrupts) (prio
              (interrupt (some (h hour) (and (= h (time)) (not (rung h))))
                (pick (h hour) (seq (test (= h (time))) (act ring h))))
              (seq (test (= (time) 3)) (act stop_interrupts))))))",
        br#"[{"name":"clock","idle":["strike(1)","strike(2)","strike(3)"]},{"name":"bell","idle":["rest","rest"]}]"#,
    ),
    // One device posts what it may not, the other closes whether it has commands or not.
    (
        b"(agent (device one) (device two) (fluent over () bool false)
            (action act () two) (exo beep () one two) (main (seq (act act) (act act) (test (over)))))",
        br#"[{"name":"one","idle":["beep","honk","beep"]},{"name":"two","idle":["beep","close"]}]"#,
    ),
];

/// The exit status of a replay of what was written.
fn replay_status<'a>(alloc: Global, agent: &'a [u8], call: &'a Call) -> Result<u8, NoMemory> {
    let (_status, journal) = call.said();
    let found = called(alloc, &Setting::replay(agent, journal.as_bytes()))?;
    Ok(found.status)
}

/// The exit status of a replay of the run that begins with this chance.
fn status_at<R: Threads + Wait + Sync>(
    threads: &R,
    rt: &HostRuntime,
    chance: u64,
) -> Result<u8, NoMemory> {
    let (agent, scripts) = PLAYS[chance as usize % PLAYS.len()];
    let sleepers = Sleepers { clock: rt, chance };
    let setting = Setting::roomy(RUN_ON_THREADS, ("x.agent", agent), ("x.devices", scripts));
    let call = threaded_with(threads, rt.alloc(), &setting, &sleepers)?;
    let status = replay_status(rt.alloc(), agent, &call);
    drop(call);
    status
}

#[test]
fn runs_are_online_whatever_the_times(rt: HostRuntime) -> Result<(), NoMemory> {
    for chance in 0..RUNS {
        let status = status_at(&rt, &rt, chance)?;
        same(&rt, chance, status, 0);
    }
    Ok(())
}
