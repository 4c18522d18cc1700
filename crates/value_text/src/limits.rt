//! What the types of a value's parts say of them.
ghost use Rattle.std.specs.Prelude.{IsUtf8};
ghost use Rattle.flow_term.specs.Paths.{AreSteps};
ghost use Rattle.value_text.specs.Integers.{IsI64};

use flow_term::{Path, Text};

/// The numbers of a path are below 2^32.
pub fn steps_are_small(path: &Path)
    ensures { AreSteps path.now }
{
    numbers_are_small(path.as_slice());
}

fn numbers_are_small(_numbers: &[u32])
    ensures { AreSteps _numbers.now }
{}

/// A text is UTF-8.
pub fn text_is_utf8(text: &Text)
    ensures { IsUtf8 text.now }
{
    text.as_str();
}

/// An `i64` is at least -2^63 and below 2^63.
pub fn integer_is_in_range(_number: i64)
    ensures { IsI64 _number }
{}
