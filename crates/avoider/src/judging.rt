// By what the awaits of a run are judged.
ghost use Rattle.std.specs.Prelude.{◌≡◌, false, length, IfOk, OnErr};
ghost use Rattle.armus_base.specs.Deadlocks.{NobodyDead};
ghost use Rattle.board.specs.calls.Seats.{IsOf, aim_at};
ghost use Rattle.pl_core.specs.calls.Worlds.{state_of};
ghost use Rattle.avoider.specs.calls.Decisions.{IsBeforeStep, IsDecision};
ghost use Rattle.avoider.specs.calls.OnBoard.{HasSameRoom, IsBeforeDecision, IsDecidedOnBoard, IsUndecided};

use crate::step::publish_on_no_cycle;
use crate::{Decision, avoid_step, avoid_step_kept, decide, decide_kept, release};
use adaptive::Wanted;
use armus_base::{NoMemory, Offset, PhaserId, TaskId};
use board::{Board, TaskSeat};
use order_graph::Order;
use phase_scan::Cells;
use pl_core::World;
use std::alloc::Global;

/// By what awaits are judged.
#[derive(Clone, Copy, Debug)]
pub enum Judging {
    /// By this graph of the statuses, which is built at each await.
    Graph(Wanted),
    /// By an order of the tasks, which is kept from one await to the next. In a world an await of which the phases of its task tell that it closes no cycle is
    /// published without it.
    Order,
}

/// Judges the awaits of a run, one after the other. An order is made when it is first needed.
#[derive(Drop)]
pub struct Judge {
    judging: Judging,
    order: Option<Order>,
}

impl Judge {
    /// A judge of this kind, which has judged nothing.
    pub fn new(judging: Judging) -> Judge {
        Judge {
            judging,
            order: None,
        }
    }

    /// Whether it judges by an order.
    pub fn keeps_order(&self) -> bool {
        match self.judging {
            Judging::Graph(_) => false,
            Judging::Order => true,
        }
    }

    /// Decides as `decide` does, or as `decide_kept` by its order.
    pub fn decide(
        &mut self,
        alloc: Global,
        seat: &mut TaskSeat,
        board: &Board,
        p: PhaserId,
        off: Offset,
        cells: &mut Cells,
    ) -> Result<Decision, NoMemory>
        requires before { IsBeforeDecision board.now (aim_at p.0 off) cells.old seat.old }
        ensures decision { IfOk result (IsDecidedOnBoard cells.new.statuses (aim_at p.0 off) seat.old seat.new) }
        ensures undecided { OnErr result (IsUndecided seat.old seat.new) }
        ensures free { (seat.new.view.holds ≡ false) × IsOf seat.new board.now }
        ensures room { HasSameRoom cells.old cells.new }
    {
        let _ = seat.id();
        if let Judging::Graph(wanted) = self.judging {
            return decide(alloc, seat, board, p, off, cells, wanted);
        }
        match self.take_order(alloc, board.tasks()) {
            Ok(mut order) => {
                let decided = decide_kept(alloc, seat, board, p, off, cells, &mut order);
                self.order = Some(order);
                decided
            }
            Err(NoMemory) => {
                release(seat, board);
                Err(NoMemory)
            }
        }
    }

    /// Decides as `avoid_step` does, or by its order as `avoid_step_kept` does, where no look at the phasers shows that the await closes no cycle.
    pub fn step(
        &mut self,
        alloc: Global,
        world: &mut World,
        t: TaskId,
    ) -> Result<Decision, NoMemory>
        requires before { IsBeforeStep world.old t.0 }
        ensures decision { IfOk result (IsDecision world.old world.new t.0) }
        ensures nobody { NobodyDead (state_of world.new) }
        ensures same { OnErr result (world.new ≡ world.old) }
    {
        if let Judging::Graph(wanted) = self.judging {
            return avoid_step(alloc, world, t, wanted);
        }
        if let Some(event) = publish_on_no_cycle(world, t) {
            return Ok(Decision::Published(event));
        }
        let mut order = self.take_order(alloc, world.plan().tasks())?;
        let decided = avoid_step_kept(alloc, world, t, &mut order);
        self.order = Some(order);
        decided
    }

    // Takes the order out, and makes one where there is none of so many tasks.
    fn take_order(&mut self, alloc: Global, tasks: u32) -> Result<Order, NoMemory>
        ensures { IfOk result (λ order. length order.positions ≡ tasks) }
    {
        if let Some(order) = self.order.take() {
            if order.tasks() == tasks {
                return Ok(order);
            }
        }
        Order::start(alloc, tasks)
    }
}
