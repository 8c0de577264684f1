// Laws of refusals.
ghost use Rattle.explain_syntax.specs.calls.Laws.{HasOneStand, HasOneSyntaxRefusal, HasSyntaxRefusal};

/// Of the place of a first fault the grammar says one thing only: which tokens may stand there, which name stands before it, and which brace is open.
pub fn fault_has_one_stand()
    ensures { HasOneStand }
{}

/// A text with a syntax fault, of a file or not, is refused in just one way.
pub fn text_has_one_syntax_refusal()
    ensures one { HasOneSyntaxRefusal }
    ensures some { HasSyntaxRefusal }
{}
