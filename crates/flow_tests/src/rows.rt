//! Tables of texts.
use std::alloc::{AllocError, Global};
use std::test::Fail;

/// What the rows of a table are about.
pub(crate) trait Topic {
    /// What is told of the text of a row.
    fn told(&self, alloc: Global, text: &[u8]) -> Result<String, Fail>;
}

/// The rows of a table that say something else than what is told of their text, each with what is told.
///
/// A row is a line `TEXT => TOLD`. In its text `` `3 ab` `` stands for three times `ab`, and `` `0a` `` for the byte with this
/// number of two hexadecimal digits.
pub(crate) fn wrong_rows<T: Topic>(alloc: Global, topic: &T, table: &str) -> Result<String, Fail> {
    let mut wrong = String::new(alloc);
    for row in table.trim().split('\n') {
        let (text, want) = row.split_once(" => ").unwrap_or((row, "nothing"));
        let text = spread(alloc, text)?;
        let told = topic.told(alloc, text.as_slice())?;
        if told.as_str() != want {
            write!(wrong, "{row}, but {told}\n")?;
        }
    }
    Ok(wrong)
}

/// The bytes that a row stands for.
fn spread(alloc: Global, text: &str) -> Result<Vec<u8>, AllocError> {
    let mut bytes = Vec::new(alloc);
    let mut is_marked = false;
    for piece in text.split('`') {
        if is_marked {
            push_marked(&mut bytes, piece)?;
        } else {
            bytes.extend_from_slice(piece.as_bytes())?;
        }
        is_marked = !is_marked;
    }
    Ok(bytes)
}

/// Adds what stands between backquotes.
fn push_marked(bytes: &mut Vec<u8>, piece: &str) -> Result<(), AllocError> {
    match piece.split_once(' ') {
        Some((times, part)) => push_times(bytes, times.parse::<u32>().unwrap_or(0), part),
        None => push_byte(bytes, u8::from_str_radix(piece, 16).unwrap_or(0)),
    }
}

fn push_byte(bytes: &mut Vec<u8>, byte: u8) -> Result<(), AllocError> {
    bytes.push(byte)?;
    Ok(())
}

fn push_times(bytes: &mut Vec<u8>, times: u32, part: &str) -> Result<(), AllocError> {
    for _ in 0..times {
        bytes.extend_from_slice(part.as_bytes())?;
    }
    Ok(())
}
