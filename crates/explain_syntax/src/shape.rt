// What a statement waits for behind its first token.
ghost use Rattle.std.specs.Prelude.{◌≡◌};
ghost use Rattle.pl_syntax.specs.inside.Seen.{token_of};
ghost use Rattle.explain_syntax.specs.inside.Shapes.{is_offset_sign, shapes_after, shapes_behind};

use pl_syntax::token::{Keyword, Sign, Token};

/// A token that is waited for.
#[derive(Clone, Copy, Debug, PartialEq, Eq)]
pub enum Shape {
    /// This sign.
    Sign(Sign),
    /// A name.
    Name,
    /// A number.
    Number,
    /// `newTid` or `newPhaser`.
    Maker,
    /// `)`, `- k )` or `+ k )`.
    Offset,
}

const DRAWN: &[Shape] = &[
    Shape::Sign(Sign::Equals),
    Shape::Maker,
    Shape::Sign(Sign::OpenParen),
    Shape::Sign(Sign::CloseParen),
    Shape::Sign(Sign::Semicolon),
];

const NAMED: &[Shape] = &[
    Shape::Sign(Sign::OpenParen),
    Shape::Name,
    Shape::Sign(Sign::CloseParen),
    Shape::Sign(Sign::Semicolon),
];

const REGISTERED: &[Shape] = &[
    Shape::Sign(Sign::OpenParen),
    Shape::Name,
    Shape::Sign(Sign::Comma),
    Shape::Name,
    Shape::Sign(Sign::CloseParen),
    Shape::Sign(Sign::Semicolon),
];

const AWAITED: &[Shape] = &[
    Shape::Sign(Sign::OpenParen),
    Shape::Name,
    Shape::Offset,
    Shape::Sign(Sign::Semicolon),
];

const FORKED: &[Shape] = &[
    Shape::Sign(Sign::OpenParen),
    Shape::Name,
    Shape::Sign(Sign::CloseParen),
    Shape::Sign(Sign::OpenBrace),
];

const LOOPED: &[Shape] = &[Shape::Number, Shape::Sign(Sign::OpenBrace)];

const ENDED: &[Shape] = &[Shape::Sign(Sign::Semicolon)];

// What is waited for behind `+` or `-` in an await.
const OFFSET: &[Shape] = &[
    Shape::Number,
    Shape::Sign(Sign::CloseParen),
    Shape::Sign(Sign::Semicolon),
];

// What a statement waits for behind this first token.
fn shapes_behind(token: &Token) -> &'static [Shape]
    ensures { result.now ≡ shapes_behind (token_of token.now) }
{
    match token {
        Token::Name(_) => DRAWN,
        Token::Word(Keyword::Reg) => REGISTERED,
        Token::Word(Keyword::Dereg | Keyword::Adv) => NAMED,
        Token::Word(Keyword::Await) => AWAITED,
        Token::Word(Keyword::Fork) => FORKED,
        Token::Word(Keyword::Loop) => LOOPED,
        Token::Word(Keyword::Skip) => ENDED,
        _ => &[],
    }
}

// Whether the token is `+` or `-`.
fn is_offset_sign(token: &Token) -> bool
    ensures { result ≡ is_offset_sign (token_of token.now) }
{
    matches!(token, Token::Sign(Sign::Plus | Sign::Minus))
}

/// What is waited for behind one more token, where these were.
pub(crate) fn shapes_after(shapes: &'static [Shape], token: &Token) -> &'static [Shape]
    ensures { result.now ≡ shapes_after shapes.now (token_of token.now) }
{
    match shapes {
        [] => shapes_behind(token),
        [Shape::Offset, ..] if is_offset_sign(token) => OFFSET,
        [_, rest @ ..] => rest,
    }
}
