// `demo_files`: a lift of 1 to 200 floors with a button pushed on each, and the scripts of its
// devices.
ghost use Rattle.std.specs.Prelude.{◌≡◌, ◌≤◌, ◌++◌, IfOk, OnOk};
ghost use Rattle.golog_demo.specs.Demo.{demo_agent as spec_demo_agent, demo_devices as spec_demo_devices, push_text, pushes};

use golog_base::{Bytes, NoMemory, add_decimal};
use std::alloc::Global;

// The agent file, cut at the number of its top floor.
const AGENT_HEAD: &[u8] = b"(agent
  (sort level 1 ";

const AGENT_ITEMS: &[u8] = b")
  (device panel) (device lift)
  (fluent floor () level 1)
  (fluent on (level) bool false)
  (fluent quitting () bool false)
  (action up () lift) (action down () lift) (action off (level) lift)
  (exo push (level) panel) (exo quit () panel)
  (poss (up) (< (floor) ";

const AGENT_END: &[u8] = b"))
  (poss (down) (< 1 (floor)))
  (poss (off f) (and (on f) (= f (floor))))
  (causes (up) (floor) (+ (floor) 1))
  (causes (down) (floor) (- (floor) 1))
  (causes (off f) (on f) false)
  (causes (push f) (on f) true)
  (causes (quit) (quitting) true)
  (main (interrupts (prio
    (interrupt (some (f level) (and (on f) (= f (floor)))) (pick (f level) (act off f)))
    (interrupt (some (f level) (and (on f) (< (floor) f))) (act up))
    (interrupt (some (f level) (and (on f) (< f (floor)))) (act down))))))
";

/// The two files of a demo.
#[derive(Debug, Drop)]
pub struct DemoFiles {
    pub agent: Bytes,
    pub devices: Bytes,
}

// The agent file of a lift of so many floors.
fn demo_agent(alloc: Global, size: u32) -> Result<Bytes, NoMemory>
    ensures { IfOk result (λ text. text ≡ spec_demo_agent size) }
{
    let mut text = Bytes::new(alloc);
    text.extend(AGENT_HEAD)?;
    add_decimal(&mut text, size as usize)?;
    text.extend(AGENT_ITEMS)?;
    add_decimal(&mut text, size as usize)?;
    text.extend(AGENT_END)?;
    Ok(text)
}

// Adds the push of a floor's button.
fn add_push(text: &mut Bytes, floor: u32) -> Result<(), NoMemory>
    ensures { OnOk result (text.new ≡ text.old ++ push_text floor) }
{
    text.extend(b"\"push(")?;
    add_decimal(text, floor as usize)?;
    text.extend(b")\"")
}

// Adds a push on each floor, the top one first.
fn add_pushes(text: &mut Bytes, size: u32) -> Result<(), NoMemory>
    requires { 1 ≤ size }
    ensures { OnOk result (text.new ≡ text.old ++ pushes size) }
{
    add_push(text, size)?;
    for below in 1..size {
        text.extend(b",")?;
        add_push(text, size - below)?;
    }
    Ok(())
}

// The devices file of a lift of so many floors.
fn demo_devices(alloc: Global, size: u32) -> Result<Bytes, NoMemory>
    requires { 1 ≤ size }
    ensures { IfOk result (λ text. text ≡ spec_demo_devices size) }
{
    let mut text = Bytes::new(alloc);
    text.extend(b"[{\"name\":\"panel\",\"answers\":[],\"idle\":[")?;
    add_pushes(&mut text, size)?;
    text.extend(b"]},{\"name\":\"lift\",\"answers\":[],\"idle\":[\"rest\"]}]")?;
    Ok(text)
}

/// The files of a lift of 1 to 200 floors: the button of each floor is pushed, from the top one down, and the lift
/// goes where it was called.
pub fn demo_files(alloc: Global, size: u32) -> Result<DemoFiles, NoMemory>
    requires some { 1 ≤ size }
    requires few { size ≤ 200 }
    ensures agent { IfOk result (λ files. files.agent ≡ spec_demo_agent size) }
    ensures devices { IfOk result (λ files. files.devices ≡ spec_demo_devices size) }
{
    let agent = demo_agent(alloc, size)?;
    let devices = demo_devices(alloc, size)?;
    Ok(DemoFiles { agent, devices })
}
