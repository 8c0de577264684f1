// The commands of the program.

/// The graph in which deadlock is looked for.
#[derive(Clone, Copy, Debug, PartialEq, Eq)]
pub enum Graph {
    /// The program's choice between the state graph and the wait-for graph.
    Auto,
    /// The wait-for graph.
    Wfg,
    /// The state graph.
    Sg,
    /// The general resource graph.
    Grg,
}

/// What goes beside the tasks of a run.
#[derive(Clone, Copy, Debug, PartialEq, Eq)]
pub enum RunKind {
    /// Nothing.
    Plain,
    /// A detector, with a line for each dead task as soon as it is found.
    Live,
    /// Passes over this many sites, each of which stores what its tasks await.
    Sites { sites: u8 },
}

/// A command of the program.
#[derive(Clone, Copy, Debug, PartialEq, Eq)]
pub enum Command {
    /// Checks a text and counts its tasks, phasers and ops, or prints it.
    Check {
        print: bool,
    },
    /// Runs a text by rounds and reports its final state, with what its kind says beside the rounds.
    Run {
        workers: u8,
        graph: Graph,
        kind: RunKind,
    },
    /// Runs a text without deadlock, where awaits are refused instead, and reports its final state; kept, with an order of the tasks that is mended where
    /// waits change.
    Avoid {
        workers: u8,
        graph: Graph,
        kept: bool,
    },
    /// Runs a text and writes it with the schedule of the run.
    Record {
        workers: u8,
    },
    /// Replays a text with a schedule.
    Replay,
    /// Runs a generated text with this many workers in it, and reports its final state in short.
    Gen {
        count: u16,
    },
    /// Runs a clock text by rounds and reports its final state; live, with a line for each dead task as soon as it is found.
    Clock {
        workers: u8,
        graph: Graph,
        live: bool,
    },
    /// Runs a text without rounds, where each free worker claims the next task, and reports its final state.
    Pool {
        workers: u8,
        graph: Graph,
    },
}
