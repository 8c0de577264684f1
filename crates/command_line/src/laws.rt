// The laws of words and commands.
ghost use Rattle.command_line.specs.calls.Commands.{EachMeaning, OneMeaning};

/// Words mean one command, or none, and never both: there is one meaning at most.
pub fn words_mean_one_command()
    ensures { OneMeaning }
{}

/// Words have a meaning: a command, or none.
pub fn words_have_a_meaning()
    ensures { EachMeaning }
{}
