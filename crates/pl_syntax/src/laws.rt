// What holds of the definitions of this crate: each law is the contract of a public function with an empty body.

ghost use Rattle.pl_syntax.specs.calls.BodyEnds.{HasOneListOfEnds};
ghost use Rattle.pl_syntax.specs.calls.StatementOffsets.{HasOneListOfOffsets};
ghost use Rattle.pl_syntax.specs.calls.Laws.{HasOneTree, HasOneFault, HasNotBoth, HasOneOfBoth, TreesFixBodies, PrintedIsText, TextsAreWritable, LineFeedChangesNothing, NoLineIsAMark, ReadsTexts, TextsAreSpaced};

/// The grammar is unambiguous: a text has at most one tree.
pub fn text_has_one_tree()
    ensures { HasOneTree }
{}

/// A text has at most one first fault.
pub fn text_has_one_fault()
    ensures { HasOneFault }
{}

/// Each text has a tree or a first fault, and none has both.
pub fn text_has_tree_or_fault()
    ensures not_both { HasNotBoth }
    ensures one_of_both { HasOneOfBoth }
{}

/// A body's list of statements and the tree that contracts see in its place fix each other.
pub fn tree_fixes_body()
    ensures { TreesFixBodies }
{}

/// The printed form of a program within the limits is a text of that very program; and the program of a text can
/// be printed.
pub fn printed_is_text()
    ensures is_text { PrintedIsText }
    ensures writable { TextsAreWritable }
{}

/// One more LF at the end of a text changes nothing, and no line of a text is `%%`.
pub fn text_has_free_lines()
    ensures line_feed { LineFeedChangesNothing }
    ensures no_mark { NoLineIsAMark }
{}

/// The texts of a program are its tokens, spaced in any way by blanks and comments: between two words there is one, no others are needed, and no others are wrong.
pub fn texts_are_spaced()
    ensures spaced { TextsAreSpaced }
    ensures worked { ReadsTexts }
{}

/// A text's program has one list of the offsets at which its statements begin, and one of those at which their bodies end.
pub fn text_has_one_list_of_offsets()
    ensures offsets { HasOneListOfOffsets }
    ensures ends { HasOneListOfEnds }
{}
