// A test of `read_journal` and `write_journal`.
ghost use Rattle.golog_semantics.specs.Reports.{IsReport};
ghost use Rattle.golog_semantics.specs.WellFormed.{WellFormed};

use crate::asserting::same;
use golog_base::NoMemory;
use golog_file::read_agent;
use golog_reports::{TextFault, read_journal};
use golog_semantics::Report;
use golog_text::{head_text, write_journal};
use golog_tree::Agent;
use std::alloc::Global;

/// An arm that looks and lifts, a panel with buttons, and a way to go without a device.
const ARM: &[u8] = b"(agent
    (device arm) (device panel)
    (sort level -1 3)
    (fluent opened () bool) (fluent height () level 1)
    (action look () arm) (action weigh () arm) (action lift (level level) arm) (action go (level))
    (exo push (level) panel) (exo stop () panel)
    (senses (look) (opened)) (senses (weigh) (height))
    (main nil))";

/// What comes of a text: the number of entries that it says, and whether it is their text; or the code and the line of
/// its refusal.
#[derive(Clone, Copy, Debug, PartialEq, Eq)]
enum Read {
    Entries(usize, bool),
    Refused(u8, u32),
    NoMemory,
}

/// Whether the text begins with the head of the report's start, where it has one.
fn has_head(alloc: Global, agent: &Agent, report: &Report, text: &[u8]) -> bool
    requires formed { WellFormed agent.now }
    requires report { IsReport agent.now report.now }
{
    let Some(values) = &report.start else {
        return true;
    };
    match head_text(alloc, agent, values.as_slice()) {
        Ok(head) => text.strip_prefix(head.as_slice()).is_some(),
        Err(NoMemory) => false,
    }
}

/// Whether the report has this text.
fn is_written(alloc: Global, agent: &Agent, report: &Report, text: &[u8]) -> bool
    requires formed { WellFormed agent.now }
    requires report { IsReport agent.now report.now }
{
    match write_journal(alloc, agent, report) {
        Ok(written) => written.as_slice() == text && has_head(alloc, agent, report, text),
        Err(NoMemory) => false,
    }
}

fn read_of(alloc: Global, agent: &Agent, text: &[u8]) -> Read
    requires { WellFormed agent.now }
{
    let read = read_journal(alloc, agent, text);
    let answer = match &read {
        Ok(report) => {
            let is_back = is_written(alloc, agent, report, text);
            Read::Entries(report.entries.len(), is_back)
        }
        Err(TextFault::Refused { line, why }) => Read::Refused(*why, *line),
        Err(TextFault::Memory) => Read::NoMemory,
    };
    drop(read);
    answer
}

/// The same of the agent of `ARM`.
fn read_by_arm(alloc: Global, text: &[u8]) -> Read {
    let read = read_agent(alloc, ARM);
    let answer = match &read {
        Ok(agent) => read_of(alloc, agent, text),
        Err(_fault) => Read::NoMemory,
    };
    drop(read);
    answer
}

/// Each line that a journal may have.
const WHOLE: &[u8] = b"0 do go(-1)
1 test run -; go(3); lift(1,-1)
2 do look @arm run look; -
3 exo panel push(0)
4 sense arm 2 true
5 do weigh @arm
6 sense arm 5 3 against 1
7 rest panel 0
8 exo panel stop
9 end done
10 close arm stopped 2
11 close panel ended 0
";

/// Texts that are refused, each with the code and the line.
const REFUSED: [(&[u8], u8, u32); 72] = [
    // A line has a body and a line feed.
    (b"\n", 50, 0),
    (b"0 test", 50, 0),
    (b"0 test\r\n", 50, 0),
    (b"0 test \n", 50, 0),
    (b"0  test\n", 50, 0),
    (b" 0 test\n", 50, 0),
    (b"00 test\n", 50, 0),
    (b"x test\n", 50, 0),
    (b"0\n", 50, 0),
    (b"0 do ?\n", 50, 0),
    (b"0 do -\n", 50, 0),
    (b"0 do a()\n", 50, 0),
    (b"0 do a(01)\n", 50, 0),
    (b"0 do a(-0)\n", 50, 0),
    (b"0 do a(b\n", 50, 0),
    (b"0 do a(b)c\n", 50, 0),
    (b"0 do a @\n", 50, 0),
    (b"0 do \xe9\n", 50, 0),
    (b"0 rest arm 01\n", 50, 0),
    (b"0 rest arm -1\n", 50, 0),
    (b"0 test run\n", 50, 0),
    (b"0 test run \n", 50, 0),
    (b"0 test run -; \n", 50, 0),
    (b"0 test run -;-\n", 50, 0),
    (b"0 test @arm\n", 50, 0),
    (b"0 sense arm 0 true against\n", 50, 0),
    (b"0 close arm gone 0\n", 50, 0),
    (b"0 end fine\n", 50, 0),
    (b"0 test\n1 test", 50, 1),
    // Numbers are places, and small.
    (b"5 do zz\n", 51, 0),
    (b"1234567890123456789012345678901234567890 test\n", 51, 0),
    (b"0 sense d 9999999 zz\n", 51, 0),
    (b"0 rest zz 2097152\n", 51, 0),
    (b"0 close zz bad 18446744073709551616\n", 51, 0),
    (b"0 test\n0 test\n", 51, 1),
    // Names are the agent's.
    (b"0 do zz\n", 52, 0),
    (b"0 rest zz 1048576\n", 52, 0),
    (b"0 do go(4)\n", 52, 0),
    (b"0 do go(1,1,1,1)\n", 52, 0),
    (b"0 do push(1)\n", 52, 0),
    (b"0 test run push(1)\n", 52, 0),
    (b"0 test run -; zz\n", 52, 0),
    (b"0 exo panel go(1)\n", 52, 0),
    (b"0 exo zz push(1)\n", 52, 0),
    (b"0 do go(1) @arm\n", 52, 0),
    (b"0 do look\n", 52, 0),
    (b"0 do look @panel\n", 52, 0),
    (b"0 sense arm 7 zz\n", 52, 0),
    (b"0 sense arm 7 true against zz\n", 52, 0),
    (
        b"0 rest an-arm-with-a-name-of-more-than-31-bytes 0\n",
        52,
        0,
    ),
    // Results are of earlier commands.
    (b"0 do look @arm\n1 sense arm 1 true\n", 53, 1),
    (b"0 do look @arm\n1 sense panel 0 true\n", 53, 1),
    (b"0 do look @arm\n1 sense arm 0 3\n", 53, 1),
    (b"0 do look @arm\n1 sense arm 0 true against 3\n", 53, 1),
    (b"0 do look @arm\n1 sense arm 2 true\n", 53, 1),
    (b"0 do lift(1,1) @arm\n1 sense arm 0 true\n", 53, 1),
    // A head has the lines of the fluents in their order, and a last one.
    (b"golog 2", 50, 0),
    (b"golog 2\r\n", 50, 0),
    (b"golog 3\n", 50, 0),
    (b"golog 2\n", 54, 1),
    (b"golog 2\nbegin\n", 54, 1),
    (b"golog 2\nstart opened true\n", 54, 1),
    (b"golog 2\nstart interrupts_running unknown", 54, 1),
    (b"golog 2\nstart interrupts_running 0\n", 54, 1),
    (
        b"golog 2\nstart interrupts_running false\nstart opened 3\n",
        54,
        2,
    ),
    (
        b"golog 2\nstart interrupts_running false\nstart opened  true\n",
        54,
        2,
    ),
    (
        b"golog 2\nstart interrupts_running false\nstart opened true\nstart height 4\n",
        54,
        3,
    ),
    (
        b"golog 2\nstart interrupts_running false\nstart opened true\nstart height -1\n",
        54,
        4,
    ),
    (
        b"golog 2\nstart interrupts_running false\nstart opened true\nstart height -1\nbegin",
        54,
        4,
    ),
    (
        b"golog 2\nstart interrupts_running false\nstart opened true\nstart height -1\nend\nbegin\n",
        54,
        4,
    ),
    // Behind it, places are counted from 0, and lines from the first of the text.
    (
        b"golog 2\nstart interrupts_running false\nstart opened true\nstart height -1\nbegin\n5 test\n",
        51,
        5,
    ),
    (
        b"golog 2\nstart interrupts_running false\nstart opened true\nstart height -1\nbegin\n0 do zz\n",
        52,
        5,
    ),
];

/// Entries behind a head.
const HEADED: &[u8] = b"golog 2
start interrupts_running false
start opened unknown
start height -1
begin
0 do weigh @arm
1 sense arm 0 3 against -1
2 end done
";

#[test]
fn lines_are_read_or_refused(rt: HostRuntime) {
    for (text, code, line) in REFUSED {
        same(
            &rt,
            text,
            read_by_arm(rt.alloc(), text),
            Read::Refused(code, line),
        );
    }
    let entries: [(&[u8], usize, bool); 4] = [
        (b"", 0, true),
        (WHOLE, 12, true),
        (HEADED, 3, true),
        (
            b"0 do look @arm\n1 sense arm 0 true against true\n",
            2,
            false,
        ),
    ];
    for (text, count, is_back) in entries {
        same(
            &rt,
            text,
            read_by_arm(rt.alloc(), text),
            Read::Entries(count, is_back),
        );
    }
}
