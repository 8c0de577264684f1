// Where the statements of a clock text begin.
ghost use Rattle.std.specs.Prelude.{◌≡◌, ◌↔◌, ◌<◌, ◌^◌, ◌++◌, [], IfOk, IsTrue, OnOk, length};
ghost use Rattle.pl_syntax.specs.Tokens.{the_end};
ghost use Rattle.pl_syntax.specs.inside.Seen.{token_of};
ghost use Rattle.clock_syntax.specs.Grammar.{IsClockText};
ghost use Rattle.clock_source_map.specs.ClockOffsets.{clock_offsets, with_keyword};

use armus_base::{List, NoMemory};
use clock_syntax::ClockProgram;
use pl_syntax::lexer::{next, place};
use pl_syntax::scan::{Language, Scan};
use pl_syntax::token::Token;
use std::alloc::Global;

// Whether the token is the end of the text.
fn is_end(token: &Token) -> bool
    ensures { IsTrue result ↔ (token_of token.now ≡ the_end) }
{
    matches!(token, Token::End)
}

// One offset more, where the token is a keyword.
fn push_keyword(offsets: &mut Vec<u32>, token: &Token, offset: u32) -> Result<(), NoMemory>
    ensures { OnOk result (offsets.new.items ≡ offsets.old.items ++ with_keyword (token_of token.now) offset []) }
{
    if let Token::Word(_) = token {
        offsets.push(offset)?;
    }
    Ok(())
}

/// How many bytes stand before each statement of the text of a clock program, in the order of the statements' numbers. A statement begins with its keyword.
pub fn clock_offsets(
    alloc: Global,
    text: &[u8],
    program: &ClockProgram,
) -> Result<List<u32>, NoMemory>
    requires short { length text.now < 2 ^ 32 }
    requires reads { IsClockText text.now program.now.body }
    ensures offsets { IfOk result (λ offsets. offsets ≡ clock_offsets text.now program.now.body) }
{
    let scan = Scan {
        total: text.len(),
        offsets: false,
        language: Language::Clocks,
    };
    let mut offsets = Vec::new(alloc);
    let mut rest = text;
    loop {
        let Ok((token, after)) = next(scan, rest) else {
            return Ok(List::from_vec(offsets));
        };
        push_keyword(&mut offsets, &token, place(scan, rest))?;
        if is_end(&token) {
            return Ok(List::from_vec(offsets));
        }
        rest = after;
    }
}
