// States after some turns, each also as the state of its places.
ghost use Rattle.std.specs.Prelude.{◌≡◌, ◌<◌, Some, length, slice_get};
ghost use Rattle.armus_base.specs.Runs.{IsReachable};
ghost use Rattle.pl_core.specs.calls.Worlds.{places_at};

use crate::plans::named_plan;
use crate::state_texts::add_world;
use armus_base::{NoMemory, Plan, TaskId};
use pl_core::{Place, Stand, World};
use std::alloc::Global;
use std::test::Fail;
use tests_rows::columns;

// A plan, its turns, and each task of the state after them, its statuses and, where no task may go on, how they have ended. A digit is a turn of its task,
// and r refuses the await of task 1.
const ROWS: &str = "\
two | | t0 ready op 0 + - -;t1 unforked op 0 . - -; /  /\n\
two | 00000 | t0 ready op 5 + 0 0;t1 ready op 0 + 0 0; /  /\n\
two | 0000001 | t0 awaits p0@1 impedes nobody op 6 + 1 0;t1 awaits p1@1 impedes nobody op 1 + 0 1; /  /\n\
two | 0000000 | t0 waits p0@1 op 6 . 1 0;t1 ready op 0 + 0 0; / t0 p0@1 p0:1 p1:0; /\n\
two | 00000001 | t0 waits p0@1 op 6 . 1 0;t1 awaits p1@1 impeded by t0 op 1 + 0 1; / t0 p0@1 p0:1 p1:0; /\n\
two | 000000011 | t0 waits p0@1 op 6 . 1 0;t1 waits p1@1 op 1 . 0 1; / t0 p0@1 p0:1 p1:0;t1 p1@1 p0:0 p1:1; / blocked blocked t0 p0@1 p0:1 p1:0;t1 p1@1 p0:0 p1:1;\n\
two | 00000001r | t0 waits p0@1 reached op 6 + 1 0;t1 refused p1@1 op 1 . - -; / t0 p0@1 p0:1 p1:0; /\n\
two | 00000001r0 | t0 done op 7 . 1 0;t1 refused p1@1 op 1 . - -; /  / done refused\n\
loop | | t0 ready op 0 + -; /  /\n\
loop | 00000 | t0 awaits p0@2 reached impedes nobody op 4 + 2; /  /\n\
loop | 000000 | t0 waits p0@2 reached op 4 + 2; / t0 p0@2 p0:2; /\n\
loop | 0000000 | t0 ready op 5 + 2; /  /\n\
loop | 0000000000 | t0 done op 7 . 3; /  / done\n\
averaging | 01230123012301230123012301230123012301230123012301230123012301230123012301230123 | t0 waits p1@1 op 12 . 0 1;t1 waits p0@1 op 1 . 1 0;t2 waits p0@1 op 1 . 1 0;t3 waits p0@1 op 1 . 1 0; / t0 p1@1 p0:0 p1:1;t1 p0@1 p0:1 p1:0;t2 p0@1 p0:1 p1:0;t3 p0@1 p0:1 p1:0; / blocked blocked blocked blocked t0 p1@1 p0:0 p1:1;t1 p0@1 p0:1 p1:0;t2 p0@1 p0:1 p1:0;t3 p0@1 p0:1 p1:0;\n\
";

// The place at this index.
fn place_within(places: &[Place], at: usize) -> Place
    requires { at < length places.now }
    ensures { slice_get places.now at ≡ Some result }
{
    places[at]
}

// Makes the next event of the task in the world, or refuses its await, and notes it in the places.
fn turn_both(world: &mut World, places: &mut Vec<Place>, t: TaskId, refuses: bool)
    requires { places.old.items ≡ world.old.places }
    ensures same { places.new.items ≡ world.new.places }
    ensures plan { world.new.plan ≡ world.old.plan }
{
    let at = t.0 as usize;
    if t.0 >= world.plan().tasks() || at >= places.len() {
        return;
    }
    let Place { events, refused } = place_within(places, at);
    match world.stand(t) {
        Stand::Await(_) if refuses => {
            world.refuse(t);
            places[at] = Place {
                events,
                refused: true,
            };
        }
        _ if !refuses && events <= 1000 && world.enabled(t) => {
            world.step(t);
            places[at] = Place {
                events: events + 1,
                refused,
            };
        }
        _ => {}
    }
}

fn take_turns(world: &mut World, places: &mut Vec<Place>, turns: &str)
    requires { places.old.items ≡ world.old.places }
    ensures same { places.new.items ≡ world.new.places }
    ensures plan { world.new.plan ≡ world.old.plan }
{
    for letter in turns.as_bytes() {
        match *letter {
            b'r' => turn_both(world, places, TaskId(1), true),
            digit => turn_both(world, places, TaskId(u32::from(digit % 16)), false),
        }
    }
}

// Whether the text of the world is this.
fn reads(alloc: Global, world: &World, wanted: &str) -> Result<bool, NoMemory> {
    let mut text = String::new(alloc);
    add_world(alloc, &mut text, world)?;
    Ok(text.as_str().trim() == wanted.trim())
}

// Whether the text of a world at these places is this.
fn reads_at(alloc: Global, plan: &Plan, places: &[Place], wanted: &str) -> Result<bool, NoMemory>
    requires one_each { length places.now ≡ length plan.now.parents }
    requires reachable { IsReachable plan.now (places_at plan.now places.now) }
{
    let same = World::at(alloc, plan, places)?;
    reads(alloc, &same, wanted)
}

// Whether the text of the state after the turns is this, and so that of the state at its places.
fn both_read(alloc: Global, plan: &Plan, turns: &str, wanted: &str) -> Result<bool, NoMemory> {
    let mut world = World::start(alloc, plan)?;
    let first = Place {
        events: 0,
        refused: false,
    };
    let mut places = vec![in alloc; first; plan.tasks() as usize]?;
    take_turns(&mut world, &mut places, turns);
    Ok(reads(alloc, &world, wanted)? && reads_at(alloc, world.plan(), &places, wanted)?)
}

fn is_met(alloc: Global, row: &str) -> Result<bool, NoMemory> {
    let (word, turns, wanted) = columns(row, "|");
    let plan = named_plan(alloc, word)?;
    both_read(alloc, &plan, turns.trim(), wanted)
}

#[test]
fn states_after_turns_and_at_their_places(rt: HostRuntime) -> Result<(), Fail> {
    for row in ROWS.lines() {
        assert!(rt; is_met(rt.alloc(), row)?, "{row}");
    }
    Ok(())
}
