// Tests of runs in which each read and each write fails in turn.
use crate::asserting::same;
use crate::calls::{Call, ONE, PLAN, RUN_FROM, Setting, called, says};
use golog_base::NoMemory;
use std::alloc::Global;

const LIFT: &[u8] = b"(agent (sort level 1 4) (device panel) (device lift)
    (exo push (level) panel) (main nil))";

/// A button that is pushed is served.
const BUTTON: (&[u8], &[u8]) = (
    b"(agent (sort level 1 4) (device panel) (device lift)
        (fluent on (level) bool false) (action off (level) lift) (exo push (level) panel)
        (causes (off f) (on f) false) (causes (push f) (on f) true)
        (main (interrupts (interrupt (on 1) (act off 1)))))",
    br#"[{"name":"panel","idle":["push(1)"]},{"name":"lift","idle":["rest"]}]"#,
);

/// The journal of its run.
const BUTTON_JOURNAL: &str =
    "0 exo panel push(1)\n1 rest lift 0\n2 do start_interrupts\n3 close panel ended 0\n\
    4 do off(1) @lift\n5 do stop_interrupts\n6 close lift ended 1\n7 end done\n";

/// A search for a way up.
const FLOORS: &[u8] = b"(agent (sort level 1 4) (fluent floor () level 1) (action up ())
    (poss (up) (< (floor) 4)) (causes (up) (floor) (+ (floor) 1))
    (main (search 8 1000 (seq (star (act up)) (test (= (floor) 2))))))";

/// The journal of its run.
const FLOORS_JOURNAL: &str = "0 do up run up; -\n1 test\n2 end done\n";

/// A door that has to be looked at before it is gone through or knocked at.
const DOOR: (&[u8], &[u8]) = (
    b"(agent (device door) (fluent opened () bool)
        (action look () door) (action go ()) (action knock ()) (senses (look) (opened))
        (main (seq (act look) (if (opened) (act go) (act knock)))))",
    br#"[{"name":"door","answers":["true"],"idle":["rest"]}]"#,
);

/// The journal of its run that follows a plan.
const DOOR_JOURNAL: &str =
    "0 rest door 0\n1 do look @door tree look{false: knock; . | true: go; .}\n\
    2 sense door 1 true\n3 do go\n4 close door ended 1\n5 end done\n";

/// A journal from which `ONE` runs, and that of this run.
const DONE_ONCE: &[u8] = b"0 do a\n";

const DONE_AGAIN: &str = "golog 2\nstart interrupts_running false\nstart p true\nbegin\n\
    0 do a\n1 test\n2 end done\n";

#[test]
fn a_read_that_fails_in_mid_stream_is_a_read_fault(rt: HostRuntime) -> Result<(), NoMemory> {
    let file = [b' '; 3000];
    let setting = Setting {
        reads: &[2],
        ..Setting::run(&file)
    };
    says(&rt, "", &setting, (4, "read fault agent\n"))
}

// Each file is selected, read to its end and found to end; the agent file is the first. Behind the last of these
// calls none is made.
#[test]
fn each_read_may_fail(rt: HostRuntime) -> Result<(), NoMemory> {
    let (agent, scripts) = BUTTON;
    let reads = [
        (0, 4, "read fault agent\n"),
        (1, 4, "read fault agent\n"),
        (2, 4, "read fault agent\n"),
        (3, 4, "read fault devices\n"),
        (4, 4, "read fault devices\n"),
        (5, 4, "read fault devices\n"),
        (6, 0, BUTTON_JOURNAL),
    ];
    for (number, status, said) in reads {
        let reads = [number];
        let setting = Setting {
            reads: &reads,
            ..Setting::run_with(agent, scripts)
        };
        says(&rt, said, &setting, (status, said))?;
    }
    Ok(())
}

// Each agent with the room of the sink, the calls that fail, and what is written: nothing after a write that fails,
// and a part of a line or the first lines where the room ends.
#[test]
fn a_write_that_fails_leaves_a_prefix(rt: HostRuntime) -> Result<(), NoMemory> {
    let writes: [(&[u8], u32, &[u32], &str); 3] = [
        (ONE, 1000, &[0], ""),
        (ONE, 10, &[], "0 do a\n1 t"),
        (LIFT, 26, &[], "0 close panel ended 0\n1 cl"),
    ];
    for (agent, room, fails, said) in writes {
        let setting = Setting {
            room,
            writes: fails,
            ..Setting::run(agent)
        };
        says(&rt, said, &setting, (5, said))?;
    }
    Ok(())
}

/// Whether a call wrote the journal, or tells of a write that failed and wrote some of its first bytes.
fn is_so_or_told(call: &Call, journal: &str) -> bool {
    let (status, text) = call.said();
    if status == 0 {
        text == journal
    } else {
        status == 5 && journal.starts_with(text)
    }
}

/// A call of a run with this journal.
type Run<'a> = (Setting<'a>, &'a str);

/// The status of such a run over a sink with room for so many bytes, whose calls of these numbers fail, and how many
/// bytes were written, if they are the journal, or its first and a write failed.
fn written_into<'a>(
    alloc: Global,
    run: Run<'a>,
    room: u32,
    writes: &'a [u32],
) -> Result<(u8, Option<usize>), NoMemory> {
    let (setting, journal) = run;
    let setting = Setting {
        room,
        writes,
        ..setting
    };
    let call = called(alloc, &setting)?;
    let is_so = is_so_or_told(&call, journal);
    let written = call.out.bytes().len();
    let status = call.status;
    drop(call);
    Ok((status, if is_so { Some(written) } else { None }))
}

/// Whether the call of the sink of this number may fail; the first does.
fn may_fail(alloc: Global, run: Run<'_>, number: u32) -> Result<bool, NoMemory> {
    let (status, written) = written_into(alloc, run, 1000, &[number])?;
    Ok(written.is_some() && (number > 0 || status == 5))
}

/// Whether the sink may have room for so many bytes: as many of the journal are written, and the status tells whether
/// that is all.
fn may_end(alloc: Global, run: Run<'_>, room: u32) -> Result<bool, NoMemory> {
    let (status, written) = written_into(alloc, run, room, &[])?;
    let (_setting, journal) = run;
    let length = journal.len().min(room as usize);
    Ok(written == Some(length) && (status == 0) == (length == journal.len()))
}

// Each call of the sink fails in turn, and it has room for each number of bytes.
#[test]
fn each_write_may_fail(rt: HostRuntime) -> Result<(), NoMemory> {
    let (button, scripts) = BUTTON;
    let (door, answers) = DOOR;
    let from = Setting::of(RUN_FROM, ("x.agent", ONE), ("x.journal", DONE_ONCE));
    let runs = [
        (Setting::run(FLOORS), FLOORS_JOURNAL),
        (Setting::run_with(button, scripts), BUTTON_JOURNAL),
        (from, DONE_AGAIN),
        (
            Setting::of(PLAN, ("x.agent", door), ("x.devices", answers)),
            DOOR_JOURNAL,
        ),
    ];
    for run in runs {
        for number in 0..10u32 {
            same(&rt, number, may_fail(rt.alloc(), run, number)?, true);
        }
        for room in 0..200u32 {
            same(&rt, room, may_end(rt.alloc(), run, room)?, true);
        }
    }
    Ok(())
}
