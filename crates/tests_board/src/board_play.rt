// A board in play: tasks walk on it, a viewer watches them, and their awaits are decided, step by step as a row says.
use crate::acts::{acts, loads};
use crate::counting::Counting;
use crate::telling::{decision_is, verdict_is};
use crate::texts::statuses_are;
use crate::walker::{Walker, begin_as};
use adaptive::Wanted;
use armus_base::{NoMemory, Plan};
use avoider::{Judge, Judging};
use board::{Board, Mode};
use collector::Collector;
use phase_scan::Cells;
use std::alloc::Global;
use std::marker::Model;
use tests_rows::{columns, first_word, number};

/// A board in play. Contracts see the board.
#[derive(Drop)]
pub(crate) struct BoardPlay<'p> {
    pub(crate) board: Board,
    pub(crate) plan: &'p Plan,
    // the tasks that walk, in the order in which they were forked
    pub(crate) seats: Vec<Walker<'p>>,
    pub(crate) viewer: Counting,
    collector: Collector,
    cells: Cells,
    judge: Judge,
}

impl<'p> Model for BoardPlay<'p> {
    ghost use Rattle.board.specs.calls.Seats.{Frame};

    ghost Value = { Frame };

    ghost use Rattle.tests_board.specs.calls.Rooms.{ArePlayed};

    ghost view = { λ b. b.board };

    ghost invariant = { λ b. ArePlayed b.board b.plan.now b.seats.items b.viewer.view b.collector b.cells };
}

// What the board is for, by the word of a row: `detect`, or by what awaits are judged.
fn mode_of(kind: &str) -> Mode {
    match kind {
        "detect" => Mode::Detect,
        _ => Mode::Avoid,
    }
}

fn judging_of(kind: &str) -> Judging {
    match kind {
        "order" => Judging::Order,
        _ => Judging::Graph(Wanted::Auto),
    }
}

fn wanted_of(word: &str) -> Wanted {
    match word {
        "grg" => Wanted::Grg,
        _ => Wanted::Auto,
    }
}

impl<'p> BoardPlay<'p> {
    /// The plan's task 0 at its opening.
    pub(crate) fn begin(
        alloc: Global,
        plan: &'p Plan,
        kind: &str,
    ) -> Result<BoardPlay<'p>, NoMemory> {
        let (board, root, view) = begin_as(alloc, plan, mode_of(kind))?;
        let collector = Collector::start(alloc, &board)?;
        let cells = Cells::start(alloc, board.tasks(), board.phasers())?;
        let mut seats = Vec::new(alloc);
        seats.push(root)?;
        Ok(BoardPlay {
            board,
            plan,
            seats,
            viewer: Counting { view, loads: 0 },
            collector,
            cells,
            judge: Judge::new(judging_of(kind)),
        })
    }

    /// Whether each step is as the row says.
    pub(crate) fn plays(&mut self, alloc: Global, steps: &str) -> Result<bool, NoMemory> {
        for step in steps.split(",") {
            if !self.step(alloc, step)? {
                return Ok(false);
            }
        }
        Ok(true)
    }

    fn step(&mut self, alloc: Global, step: &str) -> Result<bool, NoMemory> {
        let (who, verb, rest) = columns(step.trim(), " ");
        match who {
            "board" => self.board_step(alloc, verb, rest),
            "view" => self.view_step(alloc, verb, rest),
            _ => self.seat_step(alloc, number(who), verb, rest),
        }
    }

    fn seat_step(
        &mut self,
        alloc: Global,
        seat: usize,
        verb: &str,
        rest: &str,
    ) -> Result<bool, NoMemory> {
        match verb {
            "forks" => self.forks(alloc, seat),
            "decides" => self.decides(alloc, seat, rest),
            "collects" => Ok(self.collects(seat)),
            _ => Ok(self.walks(alloc, seat, verb, rest)),
        }
    }

    fn walks(&mut self, alloc: Global, seat: usize, verb: &str, rest: &str) -> bool {
        let Some(walker) = self.seats.get_mut(seat) else {
            return false;
        };
        acts(walker, alloc, &self.board, self.plan, verb, rest)
    }

    fn forks(&mut self, alloc: Global, seat: usize) -> Result<bool, NoMemory> {
        let Some(walker) = self.seats.get_mut(seat) else {
            return Ok(false);
        };
        let Ok(Some(child)) = walker.go(alloc, &self.board, self.plan) else {
            return Ok(false);
        };
        self.seats.push(child)?;
        Ok(true)
    }

    fn decides(&mut self, alloc: Global, seat: usize, wanted: &str) -> Result<bool, NoMemory> {
        if self.board.mode() != Mode::Avoid {
            return Ok(false);
        }
        let Some(walker) = self.seats.get_mut(seat) else {
            return Ok(false);
        };
        match walker.decide(alloc, &self.board, &mut self.cells, &mut self.judge)? {
            Some(decision) => decision_is(alloc, &decision, wanted),
            None => Ok(false),
        }
    }

    fn collects(&mut self, seat: usize) -> bool {
        let Some(walker) = self.seats.get_mut(seat) else {
            return false;
        };
        self.cells.collect(walker, &self.board);
        true
    }

    fn view_step(&mut self, alloc: Global, verb: &str, rest: &str) -> Result<bool, NoMemory> {
        match verb {
            "splits" => self.splits(alloc),
            "collects" => Ok(self.collects_by_viewer() == number(rest)),
            _ => Ok(loads(&mut self.viewer, &self.board, verb, rest)),
        }
    }

    // A viewer that is split from the first takes its place.
    fn splits(&mut self, alloc: Global) -> Result<bool, NoMemory> {
        self.viewer.view = self.viewer.view.split(alloc, &self.board)?;
        Ok(true)
    }

    // With how many loads the viewer collects.
    fn collects_by_viewer(&mut self) -> u32 {
        self.viewer.loads = 0;
        self.cells.collect(&mut self.viewer, &self.board);
        self.viewer.loads
    }

    fn board_step(&mut self, alloc: Global, verb: &str, rest: &str) -> Result<bool, NoMemory> {
        match verb {
            "counts" => Ok(self.counts(rest)),
            "takes" => Ok(self.takes_last()),
            "passes" => self.passes(alloc, rest),
            "watched" => self.watched(alloc, rest),
            _ => self.found(alloc, rest),
        }
    }

    // Whether the board is for so many tasks and phasers, and detects deadlock.
    fn counts(&self, rest: &str) -> bool {
        let (tasks, phasers) = first_word(rest);
        let is_detecting = self.board.mode() == Mode::Detect;
        is_detecting
            && self.board.tasks() == number(tasks)
            && self.board.phasers() == number(phasers)
    }

    /// Whether the viewer takes in the seat of the last task.
    pub(crate) fn takes_last(&mut self) -> bool {
        let Some(walker) = self.seats.pop() else {
            return false;
        };
        self.viewer.view.take_in(&self.board, walker.into_seat());
        true
    }

    // Whether a pass names these, by the graph that is wanted.
    fn passes(&mut self, alloc: Global, rest: &str) -> Result<bool, NoMemory> {
        let (word, names) = first_word(rest);
        let wanted = wanted_of(word);
        let verdict = self
            .collector
            .pass(alloc, &mut self.viewer.view, &self.board, wanted)?;
        verdict_is(alloc, &verdict, names)
    }

    // Whether the last pass found these statuses.
    fn watched(&self, alloc: Global, wanted: &str) -> Result<bool, NoMemory> {
        statuses_are(alloc, self.collector.statuses(alloc)?.as_slice(), wanted)
    }

    // Whether the last collect found these statuses.
    fn found(&self, alloc: Global, wanted: &str) -> Result<bool, NoMemory> {
        statuses_are(alloc, self.cells.statuses(alloc)?.as_slice(), wanted)
    }
}
