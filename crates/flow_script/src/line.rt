//! The command of a line.
ghost use Rattle.std.specs.Prelude.{◌≡◌};
ghost use Rattle.flow_term.specs.Paths.{AreSteps};
ghost use Rattle.flow_script.specs.Forms.{form_in, form_of_command, form_of_edit, form_of_solve, form_of_word, trimmed};
ghost use Rattle.flow_script.specs.inner.Answers.{Answers, AnswersLine, AnswersPath, AnswersTerm};

use crate::command::Command;
use crate::number::read_number;
use crate::parts::{first, others, trim};
use crate::refusal::{LineRefusal, ScriptFaultKind};
use flow_term::{Path, Term, read_path};
use std::alloc::Global;

/// The command of a line, if it has one: it has none where it is empty or a comment.
pub fn read_line(alloc: Global, line: &[u8]) -> Result<Option<Command>, LineRefusal>
    ensures { AnswersLine (form_in (trimmed line.now)) result }
{
    let body = trim(line);
    if body.is_empty() || body[0] == b'#' {
        return Ok(None);
    }
    Ok(Some(read_command(alloc, body)?))
}

/// The command of a line that begins with neither a blank nor `#`, and ends with no blank.
fn read_command(alloc: Global, body: &[u8]) -> Result<Command, LineRefusal>
    ensures { Answers (form_of_command body.now) result }
{
    let word = first(body);
    if word == b"edit".as_slice() {
        return read_edit(alloc, others(body));
    }
    if word == b"solve".as_slice() {
        return read_solve(others(body));
    }
    read_word(body)
}

/// An edit, from the parts behind its word.
fn read_edit(alloc: Global, parts: &[u8]) -> Result<Command, LineRefusal>
    ensures { Answers (form_of_edit parts.now) result }
{
    let text = others(parts);
    if text.is_empty() {
        return Err(LineRefusal::Fault(ScriptFaultKind::Command));
    }
    let path = path_of(alloc, first(parts))?;
    let term = term_of(alloc, text)?;
    Ok(Command::Edit(path, term))
}

/// A `solve`, from the parts behind its word.
fn read_solve(parts: &[u8]) -> Result<Command, LineRefusal>
    ensures { Answers (form_of_solve parts.now) result }
{
    if parts.is_empty() || !others(parts).is_empty() {
        return Err(LineRefusal::Fault(ScriptFaultKind::Command));
    }
    match read_number(first(parts)) {
        Some(visits) => Ok(Command::Solve(visits)),
        None => Err(LineRefusal::Fault(ScriptFaultKind::Number)),
    }
}

/// A command that is one word.
fn read_word(body: &[u8]) -> Result<Command, LineRefusal>
    ensures { Answers (form_of_word body.now) result }
{
    if body == b"print".as_slice() {
        return Ok(Command::Print);
    }
    if body == b"tree".as_slice() {
        return Ok(Command::Tree);
    }
    Err(LineRefusal::Fault(ScriptFaultKind::Command))
}

fn path_of(alloc: Global, text: &[u8]) -> Result<Path, LineRefusal>
    ensures { AnswersPath text.now result }
{
    match read_path(alloc, text) {
        Ok(path) => {
            steps_are_small(path.as_slice());
            Ok(path)
        }
        Err(refusal) => Err(LineRefusal::of_path(refusal)),
    }
}

/// The numbers of a path are below 2^32.
fn steps_are_small(_steps: &[u32])
    ensures { AreSteps _steps.now }
{}

fn term_of(alloc: Global, text: &[u8]) -> Result<Term, LineRefusal>
    ensures { AnswersTerm text.now result }
{
    match aterm_text::read(alloc, text) {
        Ok(term) => Ok(term),
        Err(refusal) => Err(LineRefusal::of_term(refusal)),
    }
}
