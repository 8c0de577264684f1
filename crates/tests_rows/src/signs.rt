// Bytes as text: ~ stands for LF, & for CR, ! for the byte 255 and ? for the byte 195.
use crate::digits::number;
use std::alloc::{AllocError, Global};

fn byte_of(letter: u8) -> u8 {
    match letter {
        b'~' => b'\n',
        b'&' => b'\r',
        b'!' => 255,
        b'?' => 195,
        other => other,
    }
}

/// Whether the bytes are those of a text without pieces.
pub fn are_bytes_of(bytes: &[u8], text: &str) -> bool {
    let wanted = text.as_bytes();
    bytes.len() == wanted.len()
        && bytes
            .iter()
            .zip(wanted)
            .all(|(byte, letter)| *byte == byte_of(*letter))
}

fn add_bytes(all: &mut Vec<u8>, text: &str) -> Result<(), AllocError> {
    for letter in text.bytes() {
        all.push(byte_of(letter))?;
    }
    Ok(())
}

/// The bytes of a text: where it has #, pieces, each behind the number of times that it stands there.
pub fn bytes_of(alloc: Global, text: &str) -> Result<Vec<u8>, AllocError> {
    let mut all = Vec::new(alloc);
    let mut times = 1;
    let mut is_number = false;
    for part in text.split("#") {
        if is_number {
            times = number(part);
        } else {
            for _ in 0..times {
                add_bytes(&mut all, part)?;
            }
        }
        is_number = !is_number;
    }
    Ok(all)
}
