// A test of `print_prog`.
use crate::agents::{BELL, LIFT};
use crate::asserting::same;
use golog_base::NoMemory;
use golog_file::read_agent;
use golog_print::print_prog;
use golog_tree::Agent;
use std::alloc::Global;

/// A fluent, and an action that sets it.
const ONE: &[u8] = b"(agent (fluent p () bool false) (action a ()) (causes (a) (p) true)
    (main (seq (act a) (test (p)))))";

/// Whether the text of the agent's program is this one.
fn is_printed(alloc: Global, agent: &Agent, wanted: &[u8]) -> bool {
    match print_prog(alloc, agent, &agent.main) {
        Ok(text) => text.as_slice() == wanted,
        Err(NoMemory) => false,
    }
}

/// Whether the program of the agent that this file spells has this text.
fn is_printed_back(alloc: Global, file: &[u8], program: &[u8]) -> bool {
    let read = read_agent(alloc, file);
    let answer = match &read {
        Ok(agent) => is_printed(alloc, agent, program),
        Err(_fault) => false,
    };
    drop(read);
    answer
}

#[test]
fn programs_that_were_read_are_printed_back(rt: HostRuntime) {
    let programs: [(&[u8], &[u8]); 3] = [
        (ONE, b"(seq (act a) (test (p)))"),
        (BELL, b"(while (awaited) (act ring))"),
        (LIFT, b"(pick (v0_0 level) (act off v0_0))"),
    ];
    for (file, program) in programs {
        same(
            &rt,
            program,
            is_printed_back(rt.alloc(), file, program),
            true,
        );
    }
}
