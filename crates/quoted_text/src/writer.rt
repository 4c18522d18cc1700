//! Writing texts between quotes.
ghost use Rattle.std.specs.Prelude.{◌≡◌, ◌++◌, OnOk};
ghost use Rattle.quoted_text.specs.Spellings.{byte_text, quoted};

use crate::spelling::Spelling;
use std::alloc::AllocError;

/// Adds a text between two quotes of this kind, each byte in its one spelling. Fails only for want of memory; what has been added
/// by then stays.
pub fn push_quoted(bytes: &mut Vec<u8>, quote: u8, text: &[u8]) -> Result<(), AllocError>
    ensures { OnOk result (bytes.new.items ≡ bytes.old.items ++ quoted quote text.now) }
{
    bytes.push(quote)?;
    for byte in text {
        push_byte(bytes, quote, *byte)?;
    }
    bytes.push(quote)?;
    Ok(())
}

/// Adds one byte of a text between quotes of this kind.
fn push_byte(bytes: &mut Vec<u8>, quote: u8, byte: u8) -> Result<(), AllocError>
    ensures { OnOk result (bytes.new.items ≡ bytes.old.items ++ byte_text quote byte) }
{
    bytes.extend_from_slice(Spelling::of(quote, byte).as_slice())
}
