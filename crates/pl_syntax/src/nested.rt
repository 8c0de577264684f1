// From tokens to statements, with the statements in their bodies, in any language.

ghost use Rattle.std.specs.Prelude.{◌≡◌, ℕ, ◌+◌, ◌<◌, ◌≤◌, ◌^◌, length, IfOk};
ghost use Rattle.std.specs.List.{sum_by};
ghost use Rattle.pl_syntax.specs.inside.Seen.{token_of, HasForm};
ghost use Rattle.pl_syntax.specs.inside.Reading.{Gives, statements_by, whole_by};
ghost use Rattle.pl_syntax.specs.inside.Statements.{IsOneStatement, begun_at, statement_at};

use crate::expect::{ends_list, number_at, opened_at, sign_at, unexpected};
use crate::fault::ParseEnd;
use crate::lexer::next;
use crate::limits::MAX_OPEN_BRACES;
use crate::scan::Scan;
use crate::statement::{Begun, Statement};
use crate::token::{Keyword, Sign, Token};
use std::alloc::Global;

// What is read of the statement that this token begins. The text before it is that from the token on.
fn begun_at<'a, S: Statement>(
    alloc: Global,
    scan: Scan,
    token: Token,
    before: &[u8],
    text: &'a [u8],
) -> Result<(Begun<S, S::Head>, &'a [u8]), ParseEnd>
    requires within { length text.now ≤ scan.total }
    requires before_within { length before.now ≤ scan.total }
    requires small { scan.total < 2 ^ 32 }
    requires keywords { scan.language ≡ S.language }
    requires name { HasForm scan.language token }
    ensures exact { Gives (λ x. (x.0, x.1.now)) result (begun_at S.spoken scan (token_of token.entry) before.now text.now) }
    ensures no_longer { IfOk result (λ x. length x.1.now ≤ length text.now) }
    ensures counted { IfOk result (λ x. IsOneStatement S.count x.0) }
{
    match token {
        Token::Word(Keyword::Skip) => {
            let rest = sign_at(scan, Sign::Semicolon, text)?;
            Ok((Begun::Whole(S::skip()), rest))
        }
        Token::Word(Keyword::Loop) => {
            let (k, rest) = number_at(scan, text)?;
            Ok((Begun::Head(S::looped(k)), rest))
        }
        _ => S::begun(alloc, scan, token, before, text),
    }
}

// The statement that this token begins, and how many it is with those of its body. The text before it is that from the token on.
#[cycle(read)]
#[tactic(auto, unfolding(crate::specs::inside::Reading::braced_at))]
fn statement_at<'a, S: Statement>(
    alloc: Global,
    scan: Scan,
    depth: u32,
    token: Token,
    before: &[u8],
    text: &'a [u8],
) -> Result<(S, u32, &'a [u8]), ParseEnd>
    requires within { length text.now ≤ scan.total }
    requires before_within { length before.now ≤ scan.total }
    requires small { scan.total < 2 ^ 32 }
    requires keywords { scan.language ≡ S.language }
    requires shallow { depth ≤ MAX_OPEN_BRACES }
    requires name { HasForm scan.language token }
    ensures exact { (n : ℕ) → length text.now < n → Gives (λ x. (x.0, x.2.now)) result (statement_at S.spoken (statements_by (statement_at S.spoken) n scan) scan depth (token_of token.entry) before.now text.now) }
    ensures no_longer { IfOk result (λ x. length x.2.now ≤ length text.now) }
    ensures counted { IfOk result (λ x. x.1 ≡ S.count x.0) }
    ensures few { IfOk result (λ x. x.1 + length x.2.now ≤ length text.now + 1) }
{
    let (begun, rest) = begun_at(alloc, scan, token, before, text)?;
    match begun {
        Begun::Whole(statement) => Ok((statement, 1, rest)),
        Begun::Head(head) => {
            let open = opened_at(scan, depth, rest)?;
            let (items, statements, end) = statements_at(alloc, scan, depth + 1, open)?;
            let rest = sign_at(scan, Sign::CloseBrace, end)?;
            Ok((S::holding(head, items, statements), statements + 1, rest))
        }
    }
}

// The statements up to the end of a body or of the text, and how many there are, those inside of others included.
#[cycle(read)]
fn statements_at<S: Statement>(
    alloc: Global,
    scan: Scan,
    depth: u32,
    text: &[u8],
) -> Result<(Vec<S>, u32, &[u8]), ParseEnd>
    requires within { length text.now ≤ scan.total }
    requires small { scan.total < 2 ^ 32 }
    requires keywords { scan.language ≡ S.language }
    requires shallow { depth ≤ MAX_OPEN_BRACES }
    ensures exact { (n : ℕ) → length text.now < n → Gives (λ x. (x.0.items, x.2.now)) result (statements_by (statement_at S.spoken) n scan depth text.now) }
    ensures counted { IfOk result (λ x. x.1 ≡ sum_by S.count x.0.items) }
    ensures few { IfOk result (λ x. x.1 + length x.2.now ≤ length text.now) }
{
    let mut items = Vec::new(alloc);
    let mut statements = 0;
    let mut rest = text;
    loop {
        let (token, after) = next(scan, rest)?;
        if ends_list(&token) {
            return Ok((items, statements, rest));
        }
        let (statement, more, left) = statement_at(alloc, scan, depth, token, rest, after)?;
        items.push(statement)?;
        statements += more;
        rest = left;
    }
}

/// The statements of what is left of a text, up to its end, and how many there are, those inside of others included.
#[tactic(auto, unfolding(crate::specs::inside::Reading::whole_by))]
pub fn whole_at<S: Statement>(
    alloc: Global,
    scan: Scan,
    text: &[u8],
) -> Result<(Vec<S>, u32), ParseEnd>
    requires within { length text.now ≤ scan.total }
    requires small { scan.total < 2 ^ 32 }
    requires keywords { scan.language ≡ S.language }
    ensures exact { Gives (λ x. x.0.items) result (whole_by (statement_at S.spoken) scan text.now) }
    ensures counted { IfOk result (λ x. x.1 ≡ sum_by S.count x.0.items) }
    ensures few { IfOk result (λ x. x.1 ≤ length text.now) }
{
    let (items, statements, rest) = statements_at(alloc, scan, 0, text)?;
    match next(scan, rest)? {
        (Token::End, _) => Ok((items, statements)),
        _ => Err(ParseEnd::Syntax(unexpected(scan, rest))),
    }
}
