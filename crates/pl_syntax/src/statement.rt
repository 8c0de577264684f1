// What a language says of its statements: the rest of reading is the same for all.

ghost use Rattle.std.specs.Prelude.{◌≡◌, ℕ, ◌+◌, ◌<◌, ◌≤◌, ◌^◌, length, IfOk};
ghost use Rattle.std.specs.List.{sum_by};
ghost use Rattle.pl_syntax.specs.inside.Seen.{token_of, HasForm};
ghost use Rattle.pl_syntax.specs.inside.Reading.{Gives};
ghost use Rattle.pl_syntax.specs.inside.Statements.{IsOneStatement};

use crate::fault::ParseEnd;
use crate::scan::Scan;
use crate::token::Token;
use std::alloc::Global;

/// What was read of a statement: all of it, or what stands before its body.
#[derive(Drop)]
pub enum Begun<S, H> {
    /// The statement, which has no body.
    Whole(S),
    /// What stands before the body.
    Head(H),
}

/// A statement of a language that has `skip;`, `loop k { .. }` and what it adds to them.
pub trait Statement: Drop {
    ghost use Rattle.std.specs.Prelude.{ℕ};
    ghost use Rattle.pl_syntax.specs.declared.scan.Language.{Language};
    ghost use Rattle.pl_syntax.specs.inside.Statements.{Statements};

    /// What stands before the body of a statement.
    type Head: Drop;

    // By whose keywords a text is read.
    ghost language: { Language };

    // The statements, as they are read.
    ghost spoken: { Statements Self Self.Head };

    // How many statements one is, those of its body included.
    ghost count: { Self → ℕ };

    /// `skip;`
    fn skip() -> Self
        ensures is { result ≡ spoken.skip }
        ensures counted { count result ≡ 1 };

    /// `loop k`, before its body.
    fn looped(k: u16) -> Self::Head
        ensures is { result ≡ spoken.looped k };

    /// What is read of the statement that this token begins, and what is left behind it. The text before it is that from the token on.
    fn begun<'a>(
        alloc: Global,
        scan: Scan,
        token: Token,
        before: &[u8],
        text: &'a [u8],
    ) -> Result<(Begun<Self, Self::Head>, &'a [u8]), ParseEnd>
        requires within { length text.now ≤ scan.total }
        requires before_within { length before.now ≤ scan.total }
        requires small { scan.total < 2 ^ 32 }
        requires keywords { scan.language ≡ language }
        requires name { HasForm scan.language token }
        ensures exact { Gives (λ x. (x.0, x.1.now)) result (spoken.begun scan (token_of token.entry) before.now text.now) }
        ensures no_longer { IfOk result (λ x. length x.1.now ≤ length text.now) }
        ensures counted { IfOk result (λ x. IsOneStatement count x.0) };

    /// The statement with this before its body, and these in it, of which there are so many, those inside of others included.
    fn holding(head: Self::Head, items: Vec<Self>, statements: u32) -> Self
        requires { statements ≡ sum_by count items.items }
        ensures is { result ≡ spoken.holding head items.items }
        ensures counted { count result ≡ statements + 1 };
}
