// What holds of the definitions of this crate: each law is the contract of a public function with an empty body.

ghost use Rattle.clock_syntax.specs.calls.Laws.{HasOneClockTree, HasOneClockFault, HasNotBothClocks, HasClockTreeOrFault, TreesFixClockBodies, ReadsClockTexts};

/// The grammar is unambiguous: a text has at most one tree.
pub fn clock_text_has_one_tree()
    ensures { HasOneClockTree }
{}

/// A text has at most one first fault.
pub fn clock_text_has_one_fault()
    ensures { HasOneClockFault }
{}

/// Each text has a tree or a first fault, and none has both.
pub fn clock_text_has_tree_or_fault()
    ensures not_both { HasNotBothClocks }
    ensures one_of_both { HasClockTreeOrFault }
{}

/// A body's list of statements and the tree that contracts see in its place fix each other.
pub fn tree_fixes_clock_body()
    ensures { TreesFixClockBodies }
{}

/// Some texts with their trees, by the definitions alone.
pub fn clock_texts_are_read()
    ensures { ReadsClockTexts }
{}
