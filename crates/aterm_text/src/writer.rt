//! The one written form of a term.
ghost use Rattle.std.specs.Prelude.{◌≡◌, ◌≤◌, ◌^◌, ◌++◌, map, IfOk, OnOk, IsUtf8};
ghost use Rattle.std.specs.Fmt.{signed_decimal};
ghost use Rattle.std.specs.List.{AllByRecursion, flat_map, list_all};
ghost use Rattle.flow_term.specs.Trees.{term_depth, term_size};
ghost use Rattle.quoted_text.specs.Spellings.{quoted};
ghost use Rattle.aterm_text.specs.Grammar.{IsI64, TermText};
ghost use Rattle.aterm_text.specs.Written.{KindReadsBack, ReadsBack, bracketed, is_symbol, kind_written, may_go_on, name_text, separator, written};

use crate::class::ByteClass;
use flow_term::{Kind, List, Term, Text};
use itoa::Buffer;
use quoted_text::push_quoted;
use std::alloc::{AllocError, Global};

/// The text of a term: no blanks, each application with its parentheses, and a name between quotes only where it isn't a symbol.
/// Within the limits of `read` it is read as this term again. Fails only for want of memory.
pub fn write(alloc: Global, term: &Term) -> Result<List<u8>, AllocError>
    ensures written { IfOk result (λ bytes. bytes ≡ written term.now) }
    ensures read_again { IfOk result (λ bytes. term_depth term.now ≤ 512 → term_size term.now ≤ 2 ^ 20 → TermText bytes term.now) }
{
    let mut bytes = Vec::new(alloc);
    push_term(&mut bytes, term)?;
    Ok(List::from_vec(bytes))
}

#[cycle(write)]
fn push_term(bytes: &mut Vec<u8>, term: &Term) -> Result<(), AllocError>
    ensures written { OnOk result (bytes.new.items ≡ bytes.old.items ++ written term.now) }
    ensures reads_back { OnOk result (ReadsBack term.now) }
{
    push_kind(bytes, &term.kind)?;
    if term.annos.len() == 0 {
        return Ok(());
    }
    push_bracketed(bytes, b'{', term.annos.as_slice(), b'}')
}

/// Adds a term without its annotations.
#[cycle(write)]
fn push_kind(bytes: &mut Vec<u8>, kind: &Kind) -> Result<(), AllocError>
    ensures written { OnOk result (bytes.new.items ≡ bytes.old.items ++ kind_written kind.now) }
    ensures reads_back { OnOk result (KindReadsBack kind.now) }
{
    match kind {
        Kind::Apply(name, args) => {
            push_name(bytes, name)?;
            push_bracketed(bytes, b'(', args.as_slice(), b')')
        }
        Kind::Tuple(terms) => push_bracketed(bytes, b'(', terms.as_slice(), b')'),
        Kind::Items(terms) => push_bracketed(bytes, b'[', terms.as_slice(), b']'),
        Kind::Int(number) => push_number(bytes, number),
        Kind::Str(text) => push_text(bytes, text),
    }
}

/// Adds terms between brackets, with a comma between two.
#[cycle(write)]
fn push_bracketed(
    bytes: &mut Vec<u8>,
    opening: u8,
    terms: &[Term],
    closing: u8,
) -> Result<(), AllocError>
    ensures written { OnOk result (bytes.new.items ≡ bytes.old.items ++ bracketed opening (map written terms.now) closing) }
    ensures read_back { OnOk result (AllByRecursion ReadsBack terms.now) }
{
    bytes.push(opening)?;
    for (at, term) in terms.iter().enumerate() {
        push_separator(bytes, at)?;
        push_term(bytes, term)?;
    }
    bytes.push(closing)?;
    Ok(())
}

/// Adds what stands before an item with so many before it.
fn push_separator(bytes: &mut Vec<u8>, before: usize) -> Result<(), AllocError>
    ensures { OnOk result (bytes.new.items ≡ bytes.old.items ++ separator before) }
{
    if before == 0 {
        return Ok(());
    }
    bytes.push(b',')?;
    Ok(())
}

fn push_number(bytes: &mut Vec<u8>, number: &i64) -> Result<(), AllocError>
    ensures written { OnOk result (bytes.new.items ≡ bytes.old.items ++ signed_decimal number.now) }
    ensures range { IsI64 number.now }
{
    let mut buffer = Buffer::new();
    bytes.extend_from_slice(buffer.format(*number).as_bytes())
}

fn push_text(bytes: &mut Vec<u8>, text: &Text) -> Result<(), AllocError>
    ensures written { OnOk result (bytes.new.items ≡ bytes.old.items ++ quoted 34 text.now) }
    ensures utf8 { IsUtf8 text.now }
{
    push_quoted(bytes, b'"', bytes_of(text))
}

fn push_name(bytes: &mut Vec<u8>, name: &Text) -> Result<(), AllocError>
    ensures written { OnOk result (bytes.new.items ≡ bytes.old.items ++ name_text name.now) }
    ensures utf8 { IsUtf8 name.now }
{
    let plain = bytes_of(name);
    if is_symbol(plain) {
        return bytes.extend_from_slice(plain);
    }
    push_quoted(bytes, b'"', plain)
}

fn bytes_of(text: &Text) -> &[u8]
    ensures bytes { result.now ≡ text.now }
    ensures utf8 { IsUtf8 text.now }
{
    text.as_str().as_bytes()
}

/// Whether a name may be written without quotes.
fn is_symbol(name: &[u8]) -> bool
    ensures { result ≡ is_symbol name.now }
{
    match name {
        [first, others @ ..] => ByteClass::of(*first).is_letter() && may_all_go_on(others),
        [] => false,
    }
}

/// Whether each byte may stand in a symbol behind its first byte.
fn may_all_go_on(bytes: &[u8]) -> bool
    ensures { result ≡ list_all may_go_on bytes.now }
{
    bytes.iter().all(|byte| ByteClass::of(*byte).is_in_symbol())
}
