// Rows in columns, and texts in words.
use std::alloc::{AllocError, Global};

/// A text up to a sign, and what is behind it: nothing where the sign stands nowhere.
pub fn cut<'a>(text: &'a str, sign: &str) -> (&'a str, &'a str) {
    text.split_once(sign).unwrap_or((text, ""))
}

/// The three columns of a row, between which a sign stands.
pub fn columns<'a>(row: &'a str, sign: &str) -> (&'a str, &'a str, &'a str) {
    let (first, rest) = cut(row, sign);
    let (second, third) = cut(rest, sign);
    (first, second, third)
}

/// The first word of a text, and the rest.
pub fn first_word(text: &str) -> (&str, &str) {
    cut(text.trim(), " ")
}

/// The words of a text; '' is an empty word.
pub fn words_of(alloc: Global, text: &str) -> Result<Vec<String>, AllocError> {
    let mut all = Vec::new(alloc);
    for word in text.split_whitespace() {
        let word = if word == "''" { "" } else { word };
        all.push(String::from_str(alloc, word)?)?;
    }
    Ok(all)
}
