// Tokens: the words and signs of a text.

/// A word that names a statement or what it makes: the first nine in PL, the last six and `loop` and `skip` in the language of clocks.
#[derive(Clone, Copy, Debug, PartialEq, Eq)]
pub enum Keyword {
    NewTid,
    NewPhaser,
    Fork,
    Reg,
    Dereg,
    Adv,
    Await,
    Loop,
    Skip,
    Clock,
    Async,
    Finish,
    Advance,
    Resume,
    Drop,
}

/// One of the nine bytes that are tokens by themselves; the last two are so in PL 2 alone.
#[derive(Clone, Copy, Debug, PartialEq, Eq)]
pub enum Sign {
    Equals,
    OpenParen,
    CloseParen,
    Comma,
    Semicolon,
    OpenBrace,
    CloseBrace,
    Plus,
    Minus,
}

/// A token. The end of the text is the last one.
#[derive(Clone, Copy, Debug)]
pub enum Token<'a> {
    End,
    Sign(Sign),
    Word(Keyword),
    Name(&'a [u8]),
    Number(u16),
}
