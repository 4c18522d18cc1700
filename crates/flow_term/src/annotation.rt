//! What the annotations of a term say of it.
ghost use Rattle.std.specs.Prelude.{◌≡◌, filter_map};
ghost use Rattle.std.specs.Option.{option_copied};
ghost use Rattle.flow_term.specs.Annotations.{first_of_list, location_in, location_of, name_in, name_of, sole_text, term_layer, two_numbers};

use crate::term::{Kind, Term};
use crate::text::Text;

/// The resolved name of a term: `k` of its first annotation of the form `Decl("k")` or `Ref("k")`. `None` where it has none.
pub fn resolved_name(term: &Term) -> Option<&Text>
    ensures { option_copied result ≡ name_of term.now }
{
    first_name(term.annos.as_slice())
}

fn first_name(annotations: &[Term]) -> Option<&Text>
    ensures { option_copied result ≡ first_of_list (filter_map (λ a. name_in (term_layer a)) annotations.now) }
{
    for annotation in annotations {
        if let Some(name) = name(annotation) {
            return Some(name);
        }
    }
    None
}

/// The name in an annotation, if it has one.
fn name(annotation: &Term) -> Option<&Text>
    ensures { option_copied result ≡ name_in (term_layer annotation.now) }
{
    match &annotation.kind {
        Kind::Apply(name, args) if name.as_str() == "Decl" || name.as_str() == "Ref" => {
            only_text(args.as_slice())
        }
        _ => None,
    }
}

fn only_text(terms: &[Term]) -> Option<&Text>
    ensures { option_copied result ≡ sole_text terms.now }
{
    match terms {
        [only] => match &only.kind {
            Kind::Str(text) => Some(text),
            _ => None,
        },
        _ => None,
    }
}

/// Where a term stands in its source: line and column of its first annotation of the form `At(line,column)` with two
/// integers. `None` where it has none.
pub fn location(term: &Term) -> Option<(i64, i64)>
    ensures { result ≡ location_of term.now }
{
    first_location(term.annos.as_slice())
}

fn first_location(annotations: &[Term]) -> Option<(i64, i64)>
    ensures { result ≡ first_of_list (filter_map (λ a. location_in (term_layer a)) annotations.now) }
{
    for annotation in annotations {
        if let Some(place) = place(annotation) {
            return Some(place);
        }
    }
    None
}

/// The line and the column in an annotation, if it has them.
fn place(annotation: &Term) -> Option<(i64, i64)>
    ensures { result ≡ location_in (term_layer annotation.now) }
{
    match &annotation.kind {
        Kind::Apply(name, args) if name.as_str() == "At" => both_numbers(args.as_slice()),
        _ => None,
    }
}

fn both_numbers(terms: &[Term]) -> Option<(i64, i64)>
    ensures { result ≡ two_numbers terms.now }
{
    match terms {
        [line, column] => match (&line.kind, &column.kind) {
            (Kind::Int(line), Kind::Int(column)) => Some((*line, *column)),
            _ => None,
        },
        _ => None,
    }
}
