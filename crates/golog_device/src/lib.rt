//! Devices: what they mean, how they begin, their turns over a board, and one that answers by a table.
//!
//! `begin_all` and `one_turn` are generic in the device and in the board, so a run over boxes and a
//! run over one kind of device are the same code. `one_turn` asks the board what to do, and
//! `do_next` does it: `serve_command`, `idle_turn` and `post_item` are its parts, each with the
//! part of the meaning of a turn that it makes so.
//!
//! A device that tells what it told and was given stands on `twin`, `told` and `served`:
//! `TableDevice` here, and `ScriptDevice` in golog_script. Contracts above read the two logs by the
//! functions of `specs/Logs` alone.
//!
//! Of serde_json its specification alone is cited, to say what script a text spells.
//!
//! The layers above use `Device`, `begin_all`, `one_turn` and `Turned`; golog_script `Twin`,
//! `reversed_twins`, `Told`, `ToldItems` and `ServedTexts`; tests `TableDevice`; for proofs
//! `specs/Turns` (`Turns`), `specs/Dealing` (`DealtSoFar`, `DealtAfter`, `DealtNow`,
//! `ScriptedTurn`), `specs/Slots` (`HaveBegun`, `standings`), `specs/Scripts` (`script_spelled`),
//! `specs/Devices` (what a call of a device does), `specs/Logs` (what a device tells by what it
//! keeps), `specs/Tables` (what is left of a table), and the laws.
#![tactic(auto)]

mod begin;
mod device;
mod laws;
mod served;
mod table;
mod told;
mod turn;
mod twin;

pub use begin::begin_all;
pub use device::{Begun, Device, Idle, Served};
pub use laws::{dealt_at_first, dealt_stays};
pub use served::{SERVED_ROOM, ServedTexts};
pub use table::TableDevice;
pub use told::{Told, ToldItems};
pub use turn::{Turned, one_turn};
pub use twin::{TryClone, Twin, reversed_twins};
