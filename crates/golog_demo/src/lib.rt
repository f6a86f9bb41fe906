//! A lift of any size, with a button pushed on each floor: the agent file and the devices file.
//!
//! `demo_files` writes a lift of 1 to 200 floors with a button pushed on each, and the scripts of
//! its devices; `specs/Demo` says what the two files are.
#![tactic(auto)]

mod files;

pub use files::{DemoFiles, demo_files};
