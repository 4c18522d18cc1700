//! Identifiers.
ghost use Rattle.std.specs.Prelude.{◌≡◌, ◌↔◌, IsTrue};
ghost use Rattle.std.specs.List.{list_all};
ghost use Rattle.flow_syntax.specs.Accepted.{IsIdentifier};
ghost use Rattle.flow_syntax.specs.Tokens.{IsName, is_name_byte};
ghost use Rattle.value_text.specs.inner.Reading.{Gives, item_of};

use crate::bytes::text_of;
use crate::refusal::ValueRefusal;
use flow_syntax::{is_name_byte, is_reserved};
use flow_term::Text;
use std::alloc::Global;

fn are_name_bytes(bytes: &[u8]) -> bool
    ensures { result ≡ list_all is_name_byte bytes.now }
{
    bytes.iter().all(|byte| is_name_byte(*byte))
}

fn is_name(bytes: &[u8]) -> bool
    ensures { IsTrue result ↔ IsName bytes.now }
{
    match bytes {
        [first, others @ ..] => first.is_ascii_alphabetic() && are_name_bytes(others),
        [] => false,
    }
}

/// Whether the text is an identifier and no reserved word.
pub fn is_identifier(text: &Text) -> bool
    ensures { IsTrue result ↔ IsIdentifier text.now }
{
    is_name(text.as_str().as_bytes()) && !is_reserved(text.as_str())
}

/// The identifier of these bytes.
#[tactic(auto, unfolding(crate::specs::inner::Reading::item_of))]
pub fn item_of(alloc: Global, bytes: &[u8]) -> Result<Text, ValueRefusal>
    ensures { Gives (λ text. text) result (item_of bytes.now) }
{
    let text = text_of(alloc, bytes)?;
    if !is_identifier(&text) {
        return Err(ValueRefusal::Form);
    }
    Ok(text)
}
