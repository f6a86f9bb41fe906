//! Scripts of devices: the file that holds them, their text, and a device that follows one.
//!
//! A `ScriptDevice` keeps the texts of its script in lists with the last in front, so that the next
//! is taken by `pop`. Two facts of its fields do all the rest: there is room for as many items as
//! are left and one more, until a Close was told; and once it has begun, the room for served texts
//! is 1,048,576.
//!
//! The condition of `script_text` is what `scripts_of` grants, and what an empty script has. Of a
//! `ScriptDevice` contracts above see only the trait's meaning.
#![tactic(auto)]

mod device;
mod fault;
mod lists;
mod scripts;
mod strings;
mod text;

pub use device::ScriptDevice;
pub use fault::{NO_DEVICE, NOT_JSON, SAME_NAME, SHAPE, ScriptFault, TOO_MANY};
pub use scripts::{DEVICES, Script, scripts_of};
pub use text::script_text;
