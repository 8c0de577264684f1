// Readers of a few tokens each, which take no memory.

ghost use Rattle.armus_base.specs.declared.offset.Offset.TheVariants.{Ahead, Back};
ghost use Rattle.std.specs.Prelude.{if◌then◌else◌, ◌≡◌, ◌<◌, ◌≤◌, ◌^◌, length, IfOk, IsOk};
ghost use Rattle.pl_syntax.specs.calls.Words.{IsNameIn};
ghost use Rattle.pl_syntax.specs.inside.Reading.{result_seen, unexpected, sign_at, name_at, number_at, maker_at, in_parens_at, named_at, pair_at, drawn_at, opened_at, far_at, offset_at, ends_list};
ghost use Rattle.pl_syntax.specs.inside.Seen.{token_of};

use crate::fault::{CANNOT_STAND, SyntaxFault, TOO_DEEP};
use crate::lexer::{next, place};
use crate::limits::MAX_OPEN_BRACES;
use crate::scan::Scan;
use crate::token::{Keyword, Sign, Token};
use armus_base::Offset;

/// The fault of the next token, which cannot stand here.
pub fn unexpected(scan: Scan, text: &[u8]) -> SyntaxFault
    requires within { length text.now ≤ scan.total }
    requires small { scan.total < 2 ^ 32 }
    ensures { result ≡ unexpected scan text.now }
{
    SyntaxFault {
        at: place(scan, text),
        kind: CANNOT_STAND,
    }
}

/// What is left behind this sign.
#[tactic(auto, unfolding(crate::specs::inside::Reading::sign_at))]
pub fn sign_at(scan: Scan, sign: Sign, text: &[u8]) -> Result<&[u8], SyntaxFault>
    requires within { length text.now ≤ scan.total }
    requires small { scan.total < 2 ^ 32 }
    ensures exact { result_seen (λ x. x.now) result ≡ sign_at scan sign text.now }
    ensures no_longer { IfOk result (λ x. length x.now ≤ length text.now) }
{
    match next(scan, text)? {
        (Token::Sign(found), rest) if found as u8 == sign as u8 => Ok(rest),
        _ => Err(unexpected(scan, text)),
    }
}

/// A name, and what is left behind it.
#[tactic(auto, unfolding(crate::specs::inside::Reading::name_at))]
pub fn name_at(scan: Scan, text: &[u8]) -> Result<(&[u8], &[u8]), SyntaxFault>
    requires within { length text.now ≤ scan.total }
    requires small { scan.total < 2 ^ 32 }
    ensures exact { result_seen (λ x. (x.0.now, x.1.now)) result ≡ name_at scan text.now }
    ensures name { IfOk result (λ x. IsNameIn scan.language x.0.now) }
    ensures no_longer { IfOk result (λ x. length x.1.now ≤ length text.now) }
{
    match next(scan, text)? {
        (Token::Name(x), rest) => Ok((x, rest)),
        _ => Err(unexpected(scan, text)),
    }
}

/// A number, and what is left behind it.
#[tactic(auto, unfolding(crate::specs::inside::Reading::number_at))]
pub fn number_at(scan: Scan, text: &[u8]) -> Result<(u16, &[u8]), SyntaxFault>
    requires within { length text.now ≤ scan.total }
    requires small { scan.total < 2 ^ 32 }
    ensures exact { result_seen (λ x. (x.0, x.1.now)) result ≡ number_at scan text.now }
    ensures no_longer { IfOk result (λ x. length x.1.now ≤ length text.now) }
{
    match next(scan, text)? {
        (Token::Number(n), rest) => Ok((n, rest)),
        _ => Err(unexpected(scan, text)),
    }
}

/// Whether a task is made, or a phaser; and what is left behind that word.
#[tactic(auto, unfolding(crate::specs::inside::Reading::maker_at))]
pub fn maker_at(scan: Scan, text: &[u8]) -> Result<(bool, &[u8]), SyntaxFault>
    requires within { length text.now ≤ scan.total }
    requires small { scan.total < 2 ^ 32 }
    ensures exact { result_seen (λ x. (x.0, x.1.now)) result ≡ maker_at scan text.now }
    ensures no_longer { IfOk result (λ x. length x.1.now ≤ length text.now) }
{
    match next(scan, text)? {
        (Token::Word(Keyword::NewTid), rest) => Ok((true, rest)),
        (Token::Word(Keyword::NewPhaser), rest) => Ok((false, rest)),
        _ => Err(unexpected(scan, text)),
    }
}

/// The name in `( x )`.
#[tactic(auto, unfolding(crate::specs::inside::Reading::in_parens_at))]
pub fn in_parens_at(scan: Scan, text: &[u8]) -> Result<(&[u8], &[u8]), SyntaxFault>
    requires within { length text.now ≤ scan.total }
    requires small { scan.total < 2 ^ 32 }
    ensures exact { result_seen (λ x. (x.0.now, x.1.now)) result ≡ in_parens_at scan text.now }
    ensures name { IfOk result (λ x. IsNameIn scan.language x.0.now) }
    ensures no_longer { IfOk result (λ x. length x.1.now ≤ length text.now) }
{
    let open = sign_at(scan, Sign::OpenParen, text)?;
    let (x, after) = name_at(scan, open)?;
    let close = sign_at(scan, Sign::CloseParen, after)?;
    Ok((x, close))
}

/// The name in `( x ) ;`.
#[tactic(auto, unfolding(crate::specs::inside::Reading::named_at))]
pub fn named_at(scan: Scan, text: &[u8]) -> Result<(&[u8], &[u8]), SyntaxFault>
    requires within { length text.now ≤ scan.total }
    requires small { scan.total < 2 ^ 32 }
    ensures exact { result_seen (λ x. (x.0.now, x.1.now)) result ≡ named_at scan text.now }
    ensures name { IfOk result (λ x. IsNameIn scan.language x.0.now) }
    ensures no_longer { IfOk result (λ x. length x.1.now ≤ length text.now) }
{
    let (x, after) = in_parens_at(scan, text)?;
    let rest = sign_at(scan, Sign::Semicolon, after)?;
    Ok((x, rest))
}

/// `k )`, and what is left behind it.
#[tactic(auto, unfolding(crate::specs::inside::Reading::far_at))]
fn far_at(scan: Scan, ahead: bool, text: &[u8]) -> Result<(Offset, &[u8]), SyntaxFault>
    requires within { length text.now ≤ scan.total }
    requires small { scan.total < 2 ^ 32 }
    ensures exact { result_seen (λ x. (x.0, x.1.now)) result ≡ far_at scan (if ahead then Ahead else Back) text.now }
    ensures no_longer { IfOk result (λ x. length x.1.now ≤ length text.now) }
{
    let (k, after) = number_at(scan, text)?;
    let close = sign_at(scan, Sign::CloseParen, after)?;
    if ahead {
        Ok((Offset::Ahead(k), close))
    } else {
        Ok((Offset::Back(k), close))
    }
}

/// The offset in `)`, `- k )` or `+ k )`.
#[tactic(auto, unfolding(crate::specs::inside::Reading::offset_at))]
pub fn offset_at(scan: Scan, text: &[u8]) -> Result<(Offset, &[u8]), SyntaxFault>
    requires within { length text.now ≤ scan.total }
    requires small { scan.total < 2 ^ 32 }
    ensures exact { result_seen (λ x. (x.0, x.1.now)) result ≡ offset_at scan text.now }
    ensures no_longer { IfOk result (λ x. length x.1.now ≤ length text.now) }
{
    match next(scan, text)? {
        (Token::Sign(Sign::CloseParen), rest) => Ok((Offset::Here, rest)),
        (Token::Sign(Sign::Minus), rest) => far_at(scan, false, rest),
        (Token::Sign(Sign::Plus), rest) => far_at(scan, true, rest),
        _ => Err(unexpected(scan, text)),
    }
}

/// The names in `( x , y ) ;`.
#[tactic(auto, unfolding(crate::specs::inside::Reading::pair_at))]
pub fn pair_at(scan: Scan, text: &[u8]) -> Result<(&[u8], &[u8], &[u8]), SyntaxFault>
    requires within { length text.now ≤ scan.total }
    requires small { scan.total < 2 ^ 32 }
    ensures exact { result_seen (λ x. (x.0.now, x.1.now, x.2.now)) result ≡ pair_at scan text.now }
    ensures first { IfOk result (λ x. IsNameIn scan.language x.0.now) }
    ensures second { IfOk result (λ x. IsNameIn scan.language x.1.now) }
    ensures no_longer { IfOk result (λ x. length x.2.now ≤ length text.now) }
{
    let open = sign_at(scan, Sign::OpenParen, text)?;
    let (x, after) = name_at(scan, open)?;
    let comma = sign_at(scan, Sign::Comma, after)?;
    let (y, after) = name_at(scan, comma)?;
    let close = sign_at(scan, Sign::CloseParen, after)?;
    let rest = sign_at(scan, Sign::Semicolon, close)?;
    Ok((x, y, rest))
}

/// What is made in `= newTid ( ) ;` or `= newPhaser ( ) ;`: a task or not.
#[tactic(auto, unfolding(crate::specs::inside::Reading::drawn_at))]
pub fn drawn_at(scan: Scan, text: &[u8]) -> Result<(bool, &[u8]), SyntaxFault>
    requires within { length text.now ≤ scan.total }
    requires small { scan.total < 2 ^ 32 }
    ensures exact { result_seen (λ x. (x.0, x.1.now)) result ≡ drawn_at scan text.now }
    ensures no_longer { IfOk result (λ x. length x.1.now ≤ length text.now) }
{
    let equals = sign_at(scan, Sign::Equals, text)?;
    let (is_task, after) = maker_at(scan, equals)?;
    let open = sign_at(scan, Sign::OpenParen, after)?;
    let close = sign_at(scan, Sign::CloseParen, open)?;
    let rest = sign_at(scan, Sign::Semicolon, close)?;
    Ok((is_task, rest))
}

/// What is left behind a `{`, where so many braces are open before it.
#[tactic(auto, unfolding(crate::specs::inside::Reading::opened_at))]
pub fn opened_at(scan: Scan, depth: u32, text: &[u8]) -> Result<&[u8], SyntaxFault>
    requires within { length text.now ≤ scan.total }
    requires small { scan.total < 2 ^ 32 }
    ensures exact { result_seen (λ x. x.now) result ≡ opened_at scan depth text.now }
    ensures no_longer { IfOk result (λ x. length x.now ≤ length text.now) }
    ensures shallow { IsOk result → depth < MAX_OPEN_BRACES }
{
    let rest = sign_at(scan, Sign::OpenBrace, text)?;
    if depth < MAX_OPEN_BRACES {
        Ok(rest)
    } else {
        Err(SyntaxFault {
            at: place(scan, text),
            kind: TOO_DEEP,
        })
    }
}

/// Whether a list of statements ends before this token.
pub fn ends_list(token: &Token) -> bool
    ensures { result ≡ ends_list (token_of token.now) }
{
    match token {
        Token::End => true,
        Token::Sign(Sign::CloseBrace) => true,
        _ => false,
    }
}
