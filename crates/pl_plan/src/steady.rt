// Which loops are steady: all their turns make the same ops.

ghost use Rattle.std.specs.Prelude.{◌≡◌};
ghost use Rattle.pl_syntax.specs.Tree.{done};
ghost use Rattle.pl_syntax.specs.calls.Bodies.{followed_by};
ghost use Rattle.pl_plan.specs.FoldedOps.{is_steady};

use pl_syntax::{Body, Stmt};

// Whether the statement may stand in a steady body.
#[cycle(steady)]
fn is_steady_statement(stmt: &Stmt) -> bool
    ensures { result ≡ is_steady (followed_by stmt.now done) }
{
    match stmt {
        Stmt::Adv { x: _ } => true,
        Stmt::Await { x: _, off: _ } => true,
        Stmt::Skip => true,
        Stmt::Loop { k: _, body } => is_steady(body),
        _ => false,
    }
}

// Whether the body is steady. A statement is looked at once for each loop round it, and there are at most 64 of these.
#[cycle(steady)]
pub(crate) fn is_steady(body: &Body) -> bool
    ensures { result ≡ is_steady body.now }
{
    for stmt in body.as_slice() {
        if !is_steady_statement(stmt) {
            return false;
        }
    }
    true
}
