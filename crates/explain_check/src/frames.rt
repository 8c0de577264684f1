// Where a task is in its statements.

ghost use Rattle.std.specs.Prelude.{◌≡◌, ◌+◌, ◌<◌, ◌≤◌, ◌^◌, ◌++◌, ◌∷◌, [], length, OnOk, IfOk};
ghost use Rattle.explain_check.specs.inside.Framed.{frames_after, frames_at, next_item};

use armus_base::NoMemory;
use pl_plan::checker::Checker;
use pl_plan::step::FlatStep;

/// A coming to the step with this index, or to a turn of the loop with it, whose step stands for nothing.
#[derive(Clone, Copy)]
pub(crate) struct Item {
    pub at: u32,
    pub turn: bool,
    pub step: FlatStep,
}

/// A list of statements that a task goes through: the next one, the end, and, where it is the body of a loop, the loop's index and how many turns are left.
#[derive(Clone, Copy)]
pub(crate) struct OpenBody {
    pub at: u32,
    pub to: u32,
    pub of_loop: u32,
    pub left: u16,
}

// One frame more.
fn push(frames: &mut Vec<OpenBody>, frame: OpenBody) -> Result<(), NoMemory>
    ensures { OnOk result (frames.new.items ≡ frames.old.items ++ frame ∷ []) }
{
    frames.push(frame)?;
    Ok(())
}

// Behind a coming to this step the frame stands again, and the body of a loop on top of it.
fn push_on(frames: &mut Vec<OpenBody>, frame: OpenBody, step: FlatStep) -> Result<(), NoMemory>
    requires { frame.at < frame.to }
    ensures { OnOk result (frames.new.items ≡ frames_at frame step frames.old.items) }
{
    match step {
        FlatStep::Loop {
            k,
            after,
            steady: _,
        } => {
            push(frames, OpenBody { at: after, ..frame })?;
            push(
                frames,
                OpenBody {
                    at: after,
                    to: after,
                    of_loop: frame.at,
                    left: k,
                },
            )
        }
        FlatStep::Fork { x: _, after } => push(frames, OpenBody { at: after, ..frame }),
        _ => push(
            frames,
            OpenBody {
                at: frame.at + 1,
                ..frame
            },
        ),
    }
}

/// The frame, which was taken away, goes on: to its next statement, or to the next turn of its loop; or it is at its end.
pub(crate) fn go_on(
    frames: &mut Vec<OpenBody>,
    checker: &Checker,
    frame: OpenBody,
) -> Result<Option<Item>, NoMemory>
    requires within { frame.to ≤ length checker.now.steps }
    requires small { frame.of_loop + 1 < 2 ^ 32 }
    ensures item { IfOk result (λ item. item ≡ next_item checker.now.steps frame) }
    ensures frames { OnOk result (frames.new.items ≡ frames_after checker.now.steps frame frames.old.items) }
{
    if frame.at < frame.to {
        let step = checker.step(frame.at);
        push_on(frames, frame, step)?;
        return Ok(Some(Item {
            at: frame.at,
            turn: false,
            step,
        }));
    }
    if frame.left == 0 {
        return Ok(None);
    }
    push(
        frames,
        OpenBody {
            at: frame.of_loop + 1,
            left: frame.left - 1,
            ..frame
        },
    )?;
    Ok(Some(Item {
        at: frame.of_loop,
        turn: true,
        step: FlatStep::Skip,
    }))
}
