// Numbers as text.
use std::alloc::{AllocError, Global};
use std::str::FromStr;

/// The number that a text is; 0 where it is none.
pub fn number<T: FromStr + Default>(text: &str) -> T
where
    T::Err: Drop,
{
    text.trim().parse().unwrap_or_default()
}

/// The numbers in a text, which have blanks between them.
pub fn numbers<T: FromStr + Default + Drop>(alloc: Global, text: &str) -> Result<Vec<T>, AllocError>
where
    T::Err: Drop,
{
    let mut all = Vec::new(alloc);
    for word in text.split_whitespace() {
        all.push(number(word))?;
    }
    Ok(all)
}
