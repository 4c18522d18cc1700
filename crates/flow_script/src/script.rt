//! The whole text of a script.
ghost use Rattle.std.specs.Prelude.{◌≡◌, ◌+◌, ◌++◌, [], ◌∷◌, ℕ, Err, IfErr, IfOk, List as Sequence, Ok, OnOk, length};
ghost use Rattle.std.specs.Str.Lines.{lines};
ghost use Rattle.flow_script.specs.declared.command.Line.{Line as LineValue};
ghost use Rattle.flow_script.specs.declared.refusal.ScriptFaultKind.{ScriptFaultKind as KindValue};
ghost use Rattle.flow_script.specs.Forms.{form_of_line};
ghost use Rattle.flow_script.specs.Scripts.{AreCommands, IsFirstFault, ScriptFaulty, ScriptText, line_behind};
ghost use Rattle.flow_script.specs.Results.{IfFault, UnlessNoMemory, fault_of};
ghost use Rattle.flow_script.specs.inner.Answers.{AddsLine, HasFaultAt};

use crate::command::Line;
use crate::line::read_line;
use crate::refusal::{ScriptFaultKind, ScriptRefusal};
use flow_term::List;
use std::alloc::{AllocError, Global};
use std::str;

/// The commands of a script, with the numbers of their lines.
///
/// Otherwise `Fault` with the first fault, its kind and the number of its line. That the text isn't UTF-8 comes before all else, at
/// the line of the first byte that begins no character.
pub fn read_script(alloc: Global, bytes: &[u8]) -> Result<List<Line>, ScriptRefusal>
    ensures found { IfOk result (λ script. ScriptText bytes.now script) }
    ensures only { (script : Sequence LineValue) → ScriptText bytes.now script → UnlessNoMemory result (result ≡ Ok script) }
    ensures fault { IfFault result (λ line kind. ScriptFaulty bytes.now line kind) }
    ensures first { (line : ℕ) (kind : KindValue) → ScriptFaulty bytes.now line kind → UnlessNoMemory result (result ≡ Err (fault_of line kind)) }
{
    match str::from_utf8(bytes) {
        Ok(text) => read_lines(alloc, text),
        Err(error) => Err(ScriptRefusal::Fault {
            line: line_behind(&bytes[..error.valid_up_to()]),
            kind: ScriptFaultKind::NotUtf8,
        }),
    }
}

/// The number of the line that begins or goes on behind these bytes.
fn line_behind(bytes: &[u8]) -> u64
    ensures { result ≡ line_behind bytes.now }
{
    bytes.iter().filter(|byte| **byte == b'\n').count() as u64 + 1
}

/// The commands of the lines of a text.
fn read_lines(alloc: Global, text: &str) -> Result<List<Line>, ScriptRefusal>
    ensures found { IfOk result (λ script. AreCommands 1 (lines text.now) script) }
    ensures fault { IfFault result (λ line kind. IsFirstFault (lines text.now) line kind) }
{
    let mut script = Vec::new(alloc);
    let mut number: u64 = 0;
    for line in text.lines() {
        number += 1;
        add_line(alloc, &mut script, number, line.as_bytes())?;
    }
    Ok(List::from_vec(script))
}

/// Adds the command of a line, if it has one.
fn add_line(
    alloc: Global,
    script: &mut Vec<Line>,
    number: u64,
    line: &[u8],
) -> Result<(), ScriptRefusal>
    ensures added { OnOk result (AddsLine number (form_of_line line.now) script.old.items script.new.items) }
    ensures fault { IfErr result (λ refusal. HasFaultAt number (form_of_line line.now) refusal) }
{
    match read_line(alloc, line) {
        Ok(None) => Ok(()),
        Ok(Some(command)) => {
            push_line(script, Line { number, command })?;
            Ok(())
        }
        Err(refusal) => Err(refusal.at(number)),
    }
}

fn push_line(script: &mut Vec<Line>, line: Line) -> Result<(), AllocError>
    ensures { OnOk result (script.new.items ≡ script.old.items ++ line ∷ []) }
{
    script.push(line)?;
    Ok(())
}
