// Laws of lists of tasks: each is the contract of a function with an empty body.
ghost use Rattle.explain_tasks.specs.calls.Laws.{ItemsAreNoPairs, ItemsNameTheTasks, RunsAreApart};

/// The items of a list of tasks name just these tasks, in their order; each is one task, or a run of three and more; and no two runs are one.
pub fn lists_name_their_tasks()
    ensures names { ItemsNameTheTasks }
    ensures apart { RunsAreApart }
    ensures items { ItemsAreNoPairs }
{}
