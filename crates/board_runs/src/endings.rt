// What is made of tasks once they have ended their turns: their places, and one viewer who takes their seats in.
ghost use Rattle.std.specs.Prelude.{◌≡◌, ◌<◌, All, IfOk, [], length, map};
ghost use Rattle.board.specs.calls.Seats.{IsOf};
ghost use Rattle.board.specs.calls.Steps.{IsSameSeat};
ghost use Rattle.board_runs.specs.calls.Turns.{Working};
ghost use Rattle.board_runs.specs.calls.TaskSeats.{ArePlacesOf, own_number};
ghost use Rattle.board_runs.specs.calls.Endings.{NotesPlaces, TakesAll};

use crate::Task;
use armus_base::{NoMemory, Plan};
use board::{Board, ViewSeat};
use pl_core::Place;
use std::alloc::Global;

/// The first place of each task of the plan.
pub fn first_places(alloc: Global, plan: &Plan) -> Result<Vec<Place>, NoMemory>
    ensures places { IfOk result (λ places. ArePlacesOf plan.now [] places.items) }
{
    let first = Place {
        events: 0,
        refused: false,
    };
    let places = vec![in alloc; first; plan.tasks() as usize]?;
    Ok(places)
}

/// Notes the place of each of these tasks under its number.
pub fn note_places(tasks: &[Task<'_>], places: &mut Vec<Place>)
    requires { All (λ task. own_number task < length places.old.items) tasks.now }
    ensures { NotesPlaces tasks.now places.old.items places.new.items }
{
    for task in tasks {
        places[task.id().0 as usize] = task.place();
    }
}

/// Takes the seats of these tasks in, one after the other.
pub fn take_in_all(board: &Board, view: &mut ViewSeat, tasks: Vec<Task<'_>>)
    requires made { IsOf view.old board.now }
    requires seats { All (λ task. IsOf task.seat board.now) tasks.items }
    requires no_child { All (λ task. task.children ≡ []) tasks.items }
    ensures made { IsOf view.new board.now }
    ensures same { IsSameSeat view.old.view view.new.view }
    ensures taken { TakesAll (map (λ (task : Working). task.seat) tasks.entry.items) view.old view.new }
{
    for task in tasks {
        view.take_in(board, task.into_seat());
    }
}
