//! The variables of a pattern, looked up by hash.
ghost use Rattle.std.specs.Prelude.{◌≡◌, ℕ, List as Sequence, IfOk, OnOk, bytes_eq, slice_get};
ghost use Rattle.std.specs.Option.{option_map};
ghost use Rattle.check_base.specs.Tables.{or_where};
ghost use Rattle.check_exprs.specs.inner.Variables.{AreNumbers, find_named, number_in, pattern_variable, variable_of};

use flow_syntax::ElemSort;
use flow_term::Text;
use indexmap::IndexMap;
use std::alloc::{AllocError, Global};

/// A variable. Its sort isn't known where that follows from an expression with a fault.
#[derive(Clone, Copy)]
pub struct Variable<'a> {
    pub name: &'a Text,
    pub sort: Option<&'a ElemSort>,
}

/// A variable of a pattern.
#[derive(Drop)]
pub struct PatternVariable<'a> {
    pub name: &'a Text,
    pub sort: ElemSort,
}

/// The variables of a pattern, in the order of the text.
#[derive(Drop)]
pub struct PatternVariables<'a> {
    pub list: Vec<PatternVariable<'a>>,
    /// The number of the first variable of each name.
    numbers: IndexMap<Text, usize>,
    ghost numbered: { AreNumbers list.items numbers },
}

impl<'a> PatternVariables<'a> {
    /// These variables. Fails only for want of memory.
    pub fn new(
        alloc: Global,
        list: Vec<PatternVariable<'a>>,
    ) -> Result<PatternVariables<'a>, AllocError>
        ensures { IfOk result (λ variables. variables.list ≡ list.entry) }
    {
        let numbers = number_variables(alloc, list.as_slice())?;
        Ok(PatternVariables { list, numbers })
    }

    /// The first variable of this name, if there is one.
    pub fn named(&self, name: &Text) -> Option<Variable<'_>>
        ensures { option_map variable_of result ≡ find_named name.now self.now.list.items }
    {
        let number = number_of(&self.numbers, name)?;
        variable_at(self.list.as_slice(), number)
    }
}

fn number_of(numbers: &IndexMap<Text, usize>, name: &Text) -> Option<usize>
    ensures { result ≡ number_in numbers.now name.now }
{
    numbers.get(name).copied()
}

fn variable_at<'s>(variables: &'s [PatternVariable<'s>], number: usize) -> Option<Variable<'s>>
    ensures { option_map variable_of result ≡ option_map pattern_variable (slice_get variables.now number) }
{
    let variable = variables.get(number)?;
    let sort = Some(&variable.sort);
    Some(Variable {
        name: variable.name,
        sort,
    })
}

/// Puts a number for a name, if the name has none yet.
fn put_first(
    numbers: &mut IndexMap<Text, usize>,
    name: &Text,
    number: usize,
) -> Result<(), AllocError>
    ensures { OnOk result ((x : Sequence ℕ) → number_in numbers.new x ≡ or_where (number_in numbers.old x) (bytes_eq x name.now) number) }
{
    if !numbers.contains_key(name) {
        let key = name.duplicate()?;
        numbers.insert(key, number)?;
    }
    Ok(())
}

/// The number of the first variable of each name.
fn number_variables(
    alloc: Global,
    variables: &[PatternVariable<'_>],
) -> Result<IndexMap<Text, usize>, AllocError>
    ensures { IfOk result (AreNumbers variables.now) }
{
    let mut numbers = IndexMap::new(alloc);
    for (number, variable) in variables.iter().enumerate() {
        put_first(&mut numbers, variable.name, number)?;
    }
    Ok(numbers)
}
