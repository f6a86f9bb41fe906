// `Order`, what the words of a command ask for, and `WordsFault`.
use thiserror::Error;

/// What the words of a command ask for. Its texts are the words themselves, lent.
#[derive(Clone, Copy, Debug)]
pub enum Order<'w> {
    /// Runs the program of an agent file.
    Run {
        /// The agent file's name.
        agent: &'w str,
        /// The name of the file with the scripts of its devices, if there is one.
        devices: Option<&'w str>,
        /// Whether all runs on one thread.
        inline: bool,
        /// The name of the journal file whose values it begins from, if there is one.
        from: Option<&'w str>,
        /// How many workers its searches have, if they have some: 1 to 16.
        workers: Option<u8>,
    },
    /// Checks an agent file.
    Check {
        /// Its name.
        agent: &'w str,
    },
    /// Tests a journal against an agent file.
    Replay {
        /// The agent file's name.
        agent: &'w str,
        /// The journal file's name.
        journal: &'w str,
    },
    /// Asks for the truth of a condition after the entries of a journal.
    Ask {
        /// The agent file's name.
        agent: &'w str,
        /// The journal file's name.
        journal: &'w str,
        /// The condition, as it is written.
        condition: &'w str,
    },
    /// Writes a journal as the second version of the text.
    Migrate {
        /// The agent file's name.
        agent: &'w str,
        /// The journal file's name.
        journal: &'w str,
    },
    /// Runs the lift with so many levels, 1 to 200.
    Demo {
        /// How many levels it has.
        size: u32,
    },
    /// Runs two agents, each the other's device.
    Team {
        /// The first agent file's name.
        first: &'w str,
        /// The second agent file's name.
        second: &'w str,
        /// Whether they have their steps in turn.
        inline: bool,
    },
    /// Looks for a plan that goes on for each sensed value, and follows it.
    Plan {
        /// How many steps it has in a row at most: 1 to 16.
        depth: u32,
        /// The fuel of its search: 1 to 100,000.
        fuel: u32,
        /// The agent file's name.
        agent: &'w str,
        /// The name of the file with the scripts of its devices, if there is one.
        devices: Option<&'w str>,
        /// Whether all runs on one thread.
        inline: bool,
    },
}

/// Why words were not read as an order.
#[derive(Debug, Drop, Error)]
pub enum WordsFault {
    /// They are no command.
    #[error("words refused")]
    Refused,
    /// Memory ran out.
    #[error("memory ran out")]
    Memory,
}
