// How many statements a statement is.

ghost use Rattle.std.specs.Prelude.{◌≡◌, ◌<◌, ◌^◌};
ghost use Rattle.pl_syntax.specs.Tree.{count, done};
ghost use Rattle.pl_syntax.specs.calls.Bodies.{followed_by};

use pl_syntax::Stmt;

// How many statements this one is, its body's included.
pub(crate) fn statements_in(stmt: &Stmt) -> u32
    requires { count (followed_by stmt.now done) < 2 ^ 32 }
    ensures { result ≡ count (followed_by stmt.now done) }
{
    match stmt {
        Stmt::Fork { x: _, body } => body.statements() + 1,
        Stmt::Loop { k: _, body } => body.statements() + 1,
        _ => 1,
    }
}
