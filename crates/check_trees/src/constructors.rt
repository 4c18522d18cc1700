//! The constructors of a signature by name and number of arguments.
ghost use Rattle.std.specs.Prelude.{◌≡◌, ◌==◌, ◌++◌, [], ◌∷◌, IfOk, OnOk, find, if◌then◌else◌, length, option_and_then, slice_get, None, Some};
ghost use Rattle.std.specs.Option.{option_copied};
ghost use Rattle.std.specs.Cmp.Lexicographic.{pointwise};
ghost use Rattle.indexmap.specs.IndexMap.{Updates};
ghost use Rattle.tree_fitting.specs.Fits.{argument_sorts, constructor_of};
ghost use Rattle.check_trees.specs.inner.Index.{IsIndexOf, IsIndexOfFirst, numbered, numbers_in};

use flow_syntax::{Constructor, Signature, TreeSort};
use flow_term::{List, Text};
use indexmap::IndexMap;
use std::alloc::{AllocError, Global};

/// Where the constructors of a signature stand among its constructors, by their names. It is made once for a signature, and
/// serves as long as the signature stays.
#[derive(Drop)]
pub struct Constructors {
    /// The numbers of the constructors with a name, in the order of their declaration.
    by_name: IndexMap<Text, List<usize>>,
}

impl Constructors {
    /// The index of the constructors of a signature. Fails only for want of memory.
    pub fn new(alloc: Global, signature: &Signature) -> Result<Constructors, AllocError>
        ensures { IfOk result (λ index. IsIndexOf signature.now.constructors index) }
    {
        let by_name = index_names(alloc, signature.constructors.as_slice())?;
        Ok(Constructors { by_name })
    }

    /// The sorts of the arguments, where a constructor with this name and this number of arguments makes terms of the sort.
    pub(crate) fn argument_sorts<'a>(
        &self,
        constructors: &'a [Constructor],
        sort: &Text,
        name: &Text,
        count: usize,
    ) -> Option<&'a [TreeSort]>
        requires { IsIndexOf constructors.now self.now }
        ensures { option_copied result ≡ argument_sorts constructors.now sort.now name.now count }
    {
        let constructor = find_constructor(constructors, &self.by_name, name, count)?;
        if constructor.result.text == *sort {
            return Some(constructor.args.as_slice());
        }
        None
    }
}

fn index_names(
    alloc: Global,
    constructors: &[Constructor],
) -> Result<IndexMap<Text, List<usize>>, AllocError>
    ensures { IfOk result (λ by_name. IsIndexOfFirst constructors.now constructors.now by_name) }
{
    let mut by_name = IndexMap::new(alloc);
    for (number, constructor) in constructors.iter().enumerate() {
        add_number(alloc, &mut by_name, &constructor.name.text, number)?;
    }
    Ok(by_name)
}

fn add_number(
    alloc: Global,
    by_name: &mut IndexMap<Text, List<usize>>,
    name: &Text,
    number: usize,
) -> Result<(), AllocError>
    ensures { OnOk result (Updates (pointwise ◌==◌) by_name.old by_name.new name.now (Some (numbers_in by_name.old name.now ++ number ∷ []))) }
{
    if let Some(numbers) = by_name.get_mut(name) {
        return numbers.push(number);
    }
    let mut numbers = List::new(alloc);
    numbers.push(number)?;
    by_name.insert(name.duplicate()?, numbers)?;
    Ok(())
}

/// The constructor with this name and this number of arguments, if one is declared.
fn find_constructor<'a>(
    constructors: &'a [Constructor],
    by_name: &IndexMap<Text, List<usize>>,
    name: &Text,
    count: usize,
) -> Option<&'a Constructor>
    requires { IsIndexOfFirst constructors.now constructors.now by_name.now }
    ensures { option_copied result ≡ constructor_of constructors.now name.now count }
{
    let numbers = by_name.get(name)?;
    with_count(constructors, numbers.as_slice(), count)
}

fn with_count<'a>(
    constructors: &'a [Constructor],
    numbers: &[usize],
    count: usize,
) -> Option<&'a Constructor>
    ensures { option_copied result ≡ find (λ c. length c.args == count) (numbered constructors.now numbers.now) }
{
    for number in numbers {
        if let Some(constructor) = if_count(constructors, *number, count) {
            return Some(constructor);
        }
    }
    None
}

fn if_count<'a>(
    constructors: &'a [Constructor],
    number: usize,
    count: usize,
) -> Option<&'a Constructor>
    ensures { option_copied result ≡ option_and_then (λ c. if length c.args == count then Some c else None) (slice_get constructors.now number) }
{
    let constructor = constructor_at(constructors, number)?;
    if constructor.args.len() == count {
        return Some(constructor);
    }
    None
}

fn constructor_at<'a>(constructors: &'a [Constructor], number: usize) -> Option<&'a Constructor>
    ensures { option_copied result ≡ slice_get constructors.now number }
{
    constructors.get(number)
}
