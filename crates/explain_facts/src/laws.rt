// What holds of accounts: each law is the contract of a function with an empty body.

ghost use Rattle.explain_facts.specs.calls.Laws.{AccountExists, DrawnHaveNames, ForkersFork, OneAccount, StatementsHavePlaces, WaitersHaveAwaits};

/// A text with its program, its plan and the places to which a run has come has one account at most.
pub fn one_account()
    ensures { OneAccount }
{}

/// The places to which a run of a text's plan leads have an account.
pub fn account_exists()
    ensures { AccountExists }
{}

/// Each statement of a text has a place, and an answer where its body ends.
pub fn statements_have_places()
    ensures { StatementsHavePlaces }
{}

/// A task from 1 on is told to be forked just where the code of the task that drew it forks it, and by that task.
pub fn forkers_fork()
    ensures { ForkersFork }
{}

/// A task that waits has the words and the place of an await of the text; and each task but task 0 has the name and the place of a `newTid` of the text.
pub fn tasks_are_of_text()
    ensures awaits { WaitersHaveAwaits }
    ensures names { DrawnHaveNames }
{}
