// Laws of inputs and answers, as contracts of functions with an empty body.
ghost use Rattle.armus_top.specs.Inputs.{EachCallIsMet};
ghost use Rattle.armus_top.specs.calls.Inputs.{EachInputIsMet};
ghost use Rattle.armus_top.specs.calls.Replayable.{RecordsReplay};

/// Each input that is not too long has a whole output of the command, with its status: it is answered, or refused.
pub fn each_input_is_met()
    ensures { EachInputIsMet }
{}

/// Words mean a command or none, and whatever the source has given to it, there is a whole output with its status that the call may end with.
pub fn each_call_is_met()
    ensures { EachCallIsMet }
{}

/// What `record` writes of a text that is not too long is an input of `replay`: it is not too long and not refused, and its answer has the status of the
/// record and names at its end the tasks that are dead in the recorded state.
pub fn records_replay()
    ensures { RecordsReplay }
{}
