// What is known of a clock text for the lines of the steps of its run.
ghost use Rattle.std.specs.Prelude.{◌≡◌, ◌+◌, ◌<◌, ◌^◌, Ok, None, IfOk, option_map};
ghost use Rattle.explain_facts.specs.Accounts.{numbered};
ghost use Rattle.clock_syntax.specs.Trees.{clock_count};
ghost use Rattle.clock_semantics.specs.Unfolding.{ClockUnfolding, clock_plan_of, clock_unfolded};
ghost use Rattle.clock_source_map.specs.ClockOps.{all_op_origins};
ghost use Rattle.explain_steps.specs.OpFacts.{clock_op_origin, written_parts};
ghost use Rattle.explain_steps.specs.calls.Known.{clock_part_of, kept_parts, known_ops};

use crate::clock_statements::{statement_at, statements_of};
use armus_base::{List, NoMemory, Plan, TaskId};
use clock_source_map::clock_op_origins;
use clock_syntax::{ClockProgram, ClockStmt};
use explain_clock::{ClockLayout, ClockTextFacts};
use source_map::TextPlaces;
use std::alloc::Global;

// What is known of a clock text: its activities, clocks and finishes; its statements, in the order of their numbers; and for each activity from which statement
// each op of its code comes.
#[derive(Drop)]
pub(crate) struct ClockOpFacts<'a> {
    pub(crate) alloc: Global,
    pub(crate) of_text: ClockTextFacts<'a>,
    pub(crate) statements: Vec<&'a ClockStmt>,
    pub(crate) origins: List<List<Option<u32>>>,
}

impl<'a> ClockOpFacts<'a> {
    // What is known of the text of this program with these places and this layout, which unfolds to this plan.
    pub(crate) fn new(
        alloc: Global,
        places: &'a TextPlaces<'a>,
        layout: &'a ClockLayout<'a>,
        program: &'a ClockProgram,
        plan: &Plan,
    ) -> Result<ClockOpFacts<'a>, NoMemory>
        requires few { clock_count program.now.body + 1 < 2 ^ 32 }
        requires plan { clock_plan_of program.now.body ≡ Ok plan.now }
        ensures text { IfOk result (λ facts. (known_ops facts).of_text ≡ record {
          text = places.now;
          file = None;
          offsets = layout.now.offsets;
          begun = layout.now.origins.begun;
          things = layout.now.origins.things;
        }) }
        ensures statements { IfOk result (λ facts. (known_ops facts).statements ≡ written_parts program.now.body) }
        ensures origins { IfOk result (λ facts. (u : ClockUnfolding) → clock_unfolded program.now.body ≡ Ok u → (known_ops facts).origins ≡ all_op_origins u) }
    {
        let of_text = ClockTextFacts::new(alloc, places, None, layout);
        let statements = statements_of(alloc, &program.body)?;
        let origins = clock_op_origins(alloc, program, plan)?;
        Ok(ClockOpFacts {
            alloc,
            of_text,
            statements,
            origins,
        })
    }

    // A statement, by its number.
    pub(crate) fn statement(&self, n: u32) -> Option<&'a ClockStmt>
        ensures { option_map (λ stmt. clock_part_of stmt.now) result ≡ numbered (known_ops self.now).statements n }
    {
        statement_at(&self.statements, n)
    }

    // The statement from which op `i` of an activity comes, if it comes from one.
    pub(crate) fn origin(&self, t: TaskId, i: u32) -> Option<u32>
        ensures { result ≡ clock_op_origin (known_ops self.now) t.0 i }
    {
        match self.origins.as_slice().get(t.0 as usize) {
            Some(origins) => match origins.as_slice().get(i as usize) {
                Some(origin) => *origin,
                None => None,
            },
            None => None,
        }
    }
}
