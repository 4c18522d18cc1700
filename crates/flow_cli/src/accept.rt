//! Reading the files of a request.
ghost use Rattle.std.specs.Prelude.{◌≡◌, ◌≤◌, ◌<◌, ◌^◌, ◌++◌, IfOk, IfErr, IfSome, codes};
ghost use Rattle.std.specs.FinMap.{get};
ghost use Rattle.flow_io.specs.Faults.{HasRisen};
ghost use Rattle.flow_cli.specs.declared.output.Stop.TheVariants.{NoMemory, ReadFault};
ghost use Rattle.flow_cli.specs.Accepted.{at_place};
ghost use Rattle.flow_cli.specs.Files.{refusal_line};
ghost use Rattle.flow_cli.specs.inner.Read.{IsCountable, IsFitted, IsFormOfSpec, IsFormOfSpecification, IsFormOfTokens, IsFormOfTree, IsLineOf, IsReadSpecification, IsReadTree};
ghost use Rattle.flow_io.specs.declared.reading.ReadRefusal.TheVariants.{Failed};
ghost use Rattle.flow_syntax.specs.Accepted.{HasIdentifierTokens, HasIdentifiers, IsWellFormed};
ghost use Rattle.flow_syntax.specs.Tokens.{HasRisingPlaces};
ghost use Rattle.flow_term.specs.Paths.{path_text};
ghost use Rattle.flow_term.specs.Trees.{term_size};

use crate::files::{Read, SPECIFICATION_LIMIT, TREE_LIMIT};
use crate::names::{lexical_name, sort_name, syntax_name, term_name};
use crate::output::Stop;
use aterm_text::TermRefusal;
use flow_io::{Folder, ReadRefusal, read_whole};
use flow_parse::{ParseRefusal, parse};
use flow_sorts::{NotYet, SpecRefusal, TreeRefusal, check_sorts, check_tree, only_simple};
use flow_syntax::{LexRefusal, Spec, Token, TypedSpec, lex};
use flow_term::{List, Path, Term, write_path};
use std::alloc::{AllocError, Global};

/// Reads the specification of this name, to its end.
pub fn read_specification<F: Folder>(
    alloc: Global,
    folder: &mut F,
    name: &str,
) -> Result<Read<TypedSpec>, Stop>
    ensures told { IfSome (F.held folder.old) (λ files. IfOk result (IsReadSpecification (get files name.now))) }
    ensures failed { IfErr result (λ stop. stop ≡ ReadFault → HasRisen (F.faults folder.old) (F.faults folder.new)) }
    ensures counted { F.faults folder.old ≤ F.faults folder.new }
    ensures kept { F.held folder.new ≡ F.held folder.old }
{
    match read_whole(alloc, folder, name, SPECIFICATION_LIMIT) {
        Ok(bytes) => specification_of(alloc, bytes.as_slice()),
        Err(refusal) => refused(alloc, "specification", refusal),
    }
}

/// Reads the tree of this name, to its end; it is to fit the signature of the specification.
pub fn read_tree<F: Folder>(
    alloc: Global,
    folder: &mut F,
    name: &str,
    spec: &TypedSpec,
) -> Result<Read<Term>, Stop>
    ensures told { IfSome (F.held folder.old) (λ files. IfOk result (IsReadTree spec.now.spec.signature (get files name.now))) }
    ensures countable { IfOk result IsCountable }
    ensures failed { IfErr result (λ stop. stop ≡ ReadFault → HasRisen (F.faults folder.old) (F.faults folder.new)) }
    ensures counted { F.faults folder.old ≤ F.faults folder.new }
    ensures kept { F.held folder.new ≡ F.held folder.old }
{
    match read_whole(alloc, folder, name, TREE_LIMIT) {
        Ok(bytes) => tree_of(alloc, bytes.as_slice(), spec),
        Err(refusal) => refused(alloc, "tree", refusal),
    }
}

fn specification_of(alloc: Global, bytes: &[u8]) -> Result<Read<TypedSpec>, Stop>
    ensures form { IfOk result (IsFormOfSpecification bytes.now) }
    ensures fault { IfErr result (λ stop. stop ≡ NoMemory) }
{
    match lex(alloc, bytes) {
        Ok(tokens) => specification_of_tokens(alloc, &tokens),
        Err(LexRefusal::Fault { offset, kind }) => {
            let bytes = line_at(alloc, "specification", lexical_name(kind), offset)?;
            Ok(Read::Refused(bytes))
        }
        Err(LexRefusal::NoMemory) => Err(Stop::NoMemory),
    }
}

fn specification_of_tokens(alloc: Global, tokens: &List<Token>) -> Result<Read<TypedSpec>, Stop>
    requires rising { HasRisingPlaces tokens.now }
    requires identifiers { HasIdentifierTokens tokens.now }
    ensures form { IfOk result (IsFormOfTokens tokens.now) }
    ensures fault { IfErr result (λ stop. stop ≡ NoMemory) }
{
    match parse(alloc, tokens) {
        Ok(spec) => checked(alloc, spec),
        Err(ParseRefusal::Fault { place, kind }) => {
            let bytes = line_at(alloc, "specification", syntax_name(kind), place)?;
            Ok(Read::Refused(bytes))
        }
        Err(ParseRefusal::NoMemory) => Err(Stop::NoMemory),
    }
}

fn checked(alloc: Global, spec: Spec) -> Result<Read<TypedSpec>, Stop>
    requires well_formed { IsWellFormed spec }
    requires identifiers { HasIdentifiers spec }
    ensures form { IfOk result (IsFormOfSpec spec) }
    ensures fault { IfErr result (λ stop. stop ≡ NoMemory) }
{
    match check_sorts(alloc, spec) {
        Ok(typed) => taken(alloc, typed),
        Err(SpecRefusal::Fault { place, kind }) => {
            let bytes = line_at(alloc, "specification", sort_name(kind), place)?;
            Ok(Read::Refused(bytes))
        }
        Err(SpecRefusal::NoMemory) => Err(Stop::NoMemory),
    }
}

/// Refuses what the analysis doesn't take yet.
fn taken(alloc: Global, typed: TypedSpec) -> Result<Read<TypedSpec>, Stop>
    ensures form { IfOk result (IsFormOfSpec typed.spec) }
    ensures fault { IfErr result (λ stop. stop ≡ NoMemory) }
{
    match only_simple(&typed) {
        Ok(()) => Ok(Read::Accepted(typed)),
        Err(NotYet { place }) => {
            let bytes = line_at(alloc, "specification", "not yet", place)?;
            Ok(Read::Refused(bytes))
        }
    }
}

fn tree_of(alloc: Global, bytes: &[u8], spec: &TypedSpec) -> Result<Read<Term>, Stop>
    ensures form { IfOk result (IsFormOfTree spec.now.spec.signature bytes.now) }
    ensures fault { IfErr result (λ stop. stop ≡ NoMemory) }
{
    match aterm_text::read(alloc, bytes) {
        Ok(tree) => fitted(alloc, tree, spec),
        Err(TermRefusal::Fault { offset, kind }) => {
            let bytes = line_at(alloc, "tree", term_name(kind), offset)?;
            Ok(Read::Refused(bytes))
        }
        Err(TermRefusal::NoMemory) => Err(Stop::NoMemory),
    }
}

/// Refuses a tree that doesn't fit the signature.
fn fitted(alloc: Global, tree: Term, spec: &TypedSpec) -> Result<Read<Term>, Stop>
    requires { term_size tree < 2 ^ 32 }
    ensures form { IfOk result (IsFitted spec.now.spec.signature tree) }
    ensures fault { IfErr result (λ stop. stop ≡ NoMemory) }
{
    match check_tree(alloc, spec, &tree) {
        Ok(()) => Ok(Read::Accepted(tree)),
        Err(TreeRefusal::IllSorted(path)) => Ok(Read::Refused(ill_sorted_line(alloc, &path)?)),
        Err(TreeRefusal::NoMemory) => Err(Stop::NoMemory),
    }
}

/// What follows from a file that was not read.
fn refused<T>(alloc: Global, file: &str, refusal: ReadRefusal) -> Result<Read<T>, Stop>
    ensures line { IfOk result (IsLineOf file.now refusal) }
    ensures fault { IfErr result (λ stop. stop ≡ ReadFault → refusal ≡ Failed) }
{
    match refusal {
        ReadRefusal::Missing => Ok(Read::Refused(line(alloc, file, "missing")?)),
        ReadRefusal::TooLarge => Ok(Read::Refused(line(alloc, file, "too large")?)),
        ReadRefusal::Failed => Err(Stop::ReadFault),
        ReadRefusal::NoMemory => Err(Stop::NoMemory),
    }
}

fn line(alloc: Global, file: &str, cause: &str) -> Result<Vec<u8>, AllocError>
    ensures { IfOk result (λ bytes. bytes.items ≡ refusal_line file.now cause.now) }
{
    let text = format!(in alloc; "{file}: {cause}\n")?;
    Ok(text.into_bytes())
}

/// The line of a cause that stands at a place.
fn line_at(alloc: Global, file: &str, cause: &str, place: u64) -> Result<Vec<u8>, AllocError>
    ensures { IfOk result (λ bytes. bytes.items ≡ refusal_line file.now (at_place cause.now place)) }
{
    let text = format!(in alloc; "{file}: {cause} at {place}\n")?;
    Ok(text.into_bytes())
}

/// The line of a tree whose position at the path doesn't fit.
fn ill_sorted_line(alloc: Global, path: &Path) -> Result<Vec<u8>, AllocError>
    ensures { IfOk result (λ bytes. bytes.items ≡ refusal_line (codes "tree") (codes "ill-sorted at " ++ path_text path.now)) }
{
    let mut line = Vec::new(alloc);
    line.extend_from_slice(b"tree: ill-sorted at ")?;
    let position = write_path(alloc, path)?;
    line.extend_from_slice(position.as_slice())?;
    line.push(b'\n')?;
    Ok(line)
}
