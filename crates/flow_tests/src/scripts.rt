//! Texts of scripts.
use crate::rows::{Topic, wrong_rows};
use flow_script::{
    Command, Line, ScriptFaultKind, ScriptRefusal, read_script, scripts_have_one_answer,
};
use flow_term::{List, write_path};
use std::alloc::{AllocError, Global};
use std::test::Fail;

/// Rows of scripts, of which each command is told with the number of its line; or the first fault.
#[derive(Clone, Copy)]
struct OfScript;

impl Topic for OfScript {
    fn told(&self, alloc: Global, text: &[u8]) -> Result<String, Fail> {
        match read_script(alloc, text) {
            Ok(script) => Ok(commands_of(alloc, &script)?),
            Err(ScriptRefusal::Fault { line, kind }) => {
                Ok(format!(in alloc; "{line} {}", name_of(kind))?)
            }
            Err(ScriptRefusal::NoMemory) => Ok(format!(in alloc; "no memory")?),
        }
    }
}

fn name_of(kind: ScriptFaultKind) -> &'static str {
    match kind {
        ScriptFaultKind::NotUtf8 => "NotUtf8",
        ScriptFaultKind::Command => "Command",
        ScriptFaultKind::Path => "Path",
        ScriptFaultKind::Term => "Term",
        ScriptFaultKind::Number => "Number",
    }
}

fn commands_of(alloc: Global, script: &List<Line>) -> Result<String, Fail> {
    let mut told = String::new(alloc);
    for line in script.as_slice() {
        let command = command_of(alloc, &line.command)?;
        write!(told, "{} {command};", line.number)?;
    }
    Ok(told)
}

fn command_of(alloc: Global, command: &Command) -> Result<String, Fail> {
    match command {
        Command::Edit(path, term) => {
            let path = String::from_utf8(write_path(alloc, path)?.into_vec())?;
            let term = String::from_utf8(aterm_text::write(alloc, term)?.into_vec())?;
            Ok(format!(in alloc; "edit {path} {term}")?)
        }
        Command::Solve(visits) => Ok(format!(in alloc; "solve {visits}")?),
        Command::Print => Ok(format!(in alloc; "print")?),
        Command::Tree => Ok(format!(in alloc; "tree")?),
    }
}

const READ: &str = r#"
print => 1 print;
 => 
print`0a`tree`0a` => 1 print;2 tree;
print`0d``0a`solve 3`0d``0a` => 1 print;2 solve 3;
`0a``0a`# print`0a`  `09` `0a` tree `09` => 5 tree;
#print`0a` # `ff`x => 2 NotUtf8
edit / f => 1 edit / f();
edit`09`/0/10  `09`[ 1, "a" {x} ]  `0a`print => 1 edit /0/10 [1,"a"{x()}];2 print;
edit /0 f(1)`0d` => 1 edit /0 f(1);
solve 0 => 1 solve 0;
solve 0000000000000000007 => 1 solve 7;
solve 9999999999999999999 => 1 solve 9999999999999999999;
edit /4294967295/0 f{} => 1 edit /4294967295/0 f();
"#;

const FAULTS: &str = r#"
print`0a`solv 3 => 2 Command
`0d` => 1 Command
print`0d` => 1 Command
print`0d``0d``0a` => 1 Command
print x => 1 Command
print# => 1 Command
Print => 1 Command
messages => 1 Command
cert => 1 Command
edit => 1 Command
edit /0 => 1 Command
edit 0 f( => 1 Path
edit /01 f => 1 Path
edit /4294967296 f => 1 Path
edit /0 f( => 1 Term
edit /0 f g => 1 Term
edit /0 `513 [``513 ]` => 1 Term
solve => 1 Command
solve 1 2 => 1 Command
solve +1 => 1 Number
solve 1a => 1 Number
solve 10000000000000000000 => 1 Number
solve 00000000000000000001 => 1 Number
tree`0a``0a`edit /a f`0a`solve x => 3 Path
solv`0a`print`0a``c3``0a` => 3 NotUtf8
`0b`print => 1 Command
"#;

#[test]
fn a_script_has_its_commands_or_its_first_fault(rt: HostRuntime) -> Result<(), Fail> {
    scripts_have_one_answer();
    for table in [READ, FAULTS] {
        assert_eq!(rt; wrong_rows(rt.alloc(), &OfScript, table)?.as_str(), "");
    }
    Ok(())
}
