//! From words to a status.
ghost use Rattle.std.specs.Prelude.{◌≡◌, ◌⊎◌, ◌≤◌, ◌<◌, ◌^◌, ℕ, List as Sequence, None, Some, IfErr, IfOk, IfSome};
ghost use Rattle.std.specs.FinMap.{get};
ghost use Rattle.flow_term.specs.Trees.{term_size};
ghost use Rattle.flow_io.specs.Faults.{HasRisen};
ghost use Rattle.flow_cli.specs.declared.output.Stop.TheVariants as stops;
ghost use Rattle.flow_cli.specs.GraphText.{GraphText};
ghost use Rattle.flow_cli.specs.inner.Written.{IsWritten};
ghost use Rattle.flow_cli.specs.Outcome.{IsCompleted, IsOutcome, WritesNothing, status_of};
ghost use Rattle.flow_cli.specs.Whole.{IsGraphOutput, Whole};
ghost use Rattle.flow_cli.specs.Words.{request_of};

use crate::accept::{read_specification, read_tree};
use crate::files::Read;
use crate::output::{End, Output, Stop};
use crate::print::print_graph;
use crate::status::Status;
use crate::words::{Request, read_words};
use flow_io::{Folder, Sink, write_all};
use flow_links::plain_graph;
use flow_syntax::TypedSpec;
use flow_term::{List, Term, Text};
use std::alloc::{AllocError, Global};

/// Does what the words ask for, with files of the folder, and writes the output to the sink.
///
/// `Done` and `Refused` come where the whole output was written: the output of the request, or the line of its first
/// file that is missing, too large or refused for what it holds. `Usage` comes where the words ask for nothing, `ReadFault` and
/// `WriteFault` only where the folder's or the sink's count of faults rose in this call, or stands at its end. Without such a rise,
/// a run whose words ask for something ends with the status of its whole output, unless memory runs out.
///
/// With `Usage`, `ReadFault` and `NoMemory` the sink is as before. With `Usage` so is the folder; no status changes what it holds.
pub fn run<F: Folder, K: Sink>(
    alloc: Global,
    words: &List<Text>,
    folder: &mut F,
    out: &mut K,
) -> Status
    // Over a folder that tells what it holds, what was written is as the status says,
    ensures outcome { IfSome (F.held folder.old)
        (λ files. IsOutcome words.now files (K.written out.old) (K.written out.new) result) }
    // and where no call fails, a request ends with the status of its whole output.
    ensures complete { let reads_failed = HasRisen (F.faults folder.old) (F.faults folder.new) in
        let writes_failed = HasRisen (K.faults out.old) (K.faults out.new) in
        ¬ reads_failed → ¬ writes_failed
        → IfSome (F.held folder.old) (λ files. IsCompleted words.now files result) }

    // Over each folder and sink, when a status comes:
    ensures usage { result ≡ Status.Usage → request_of words.now ≡ None }
    ensures no_usage { request_of words.now ≡ None → (result ≡ Status.Usage) ⊎ (result ≡ Status.NoMemory) }
    ensures read_fault { result ≡ Status.ReadFault → HasRisen (F.faults folder.old) (F.faults folder.new) }
    ensures write_fault { result ≡ Status.WriteFault → HasRisen (K.faults out.old) (K.faults out.new) }

    // and what stays as it was.
    ensures unwritten { WritesNothing result → out.new ≡ out.old }
    ensures unread { result ≡ Status.Usage → folder.new ≡ folder.old }
    ensures kept { F.held folder.new ≡ F.held folder.old }
    ensures reads_counted { F.faults folder.old ≤ F.faults folder.new }
    ensures writes_counted { K.faults out.old ≤ K.faults out.new }
{
    match read_words(alloc, words) {
        Ok(Some(request)) => respond(alloc, &request, folder, out),
        Ok(None) => Status::Usage,
        Err(_) => Status::NoMemory,
    }
}

/// Does what the request asks for.
fn respond<F: Folder, K: Sink>(
    alloc: Global,
    request: &Request,
    folder: &mut F,
    out: &mut K,
) -> Status
    ensures outcome { (words : Sequence (Sequence ℕ)) → request_of words ≡ Some request.now
        → IfSome (F.held folder.old) (λ files. IsOutcome words files (K.written out.old) (K.written out.new) result) }
    ensures asked { result ≡ Status.Usage → ⊥ }
    ensures read_fault { result ≡ Status.ReadFault → HasRisen (F.faults folder.old) (F.faults folder.new) }
    ensures write_fault { result ≡ Status.WriteFault → HasRisen (K.faults out.old) (K.faults out.new) }
    ensures unwritten { WritesNothing result → out.new ≡ out.old }
    ensures kept { F.held folder.new ≡ F.held folder.old }
    ensures reads_counted { F.faults folder.old ≤ F.faults folder.new }
    ensures writes_counted { K.faults out.old ≤ K.faults out.new }
{
    match output_of(alloc, request, folder) {
        Ok(output) => write_output(&output, out),
        Err(Stop::ReadFault) => Status::ReadFault,
        Err(Stop::NoMemory) => Status::NoMemory,
    }
}

/// Writes an output.
fn write_output<K: Sink>(output: &Output, out: &mut K) -> Status
    ensures written { IsWritten output.now.bytes.items output.now.end (K.written out.old) (K.written out.new) result }
    ensures ends { (result ≡ status_of output.now.end)
        ⊎ ((result ≡ Status.WriteFault) × HasRisen (K.faults out.old) (K.faults out.new)) }
    ensures counted { K.faults out.old ≤ K.faults out.new }
{
    match write_all(out, output.bytes.as_slice()) {
        Ok(()) => status_after(output.end),
        Err(_) => Status::WriteFault,
    }
}

fn status_after(end: End) -> Status
    ensures { result ≡ status_of end }
{
    match end {
        End::Done => Status::Done,
        End::Refused => Status::Refused,
    }
}

/// The output of a request.
fn output_of<F: Folder>(alloc: Global, request: &Request, folder: &mut F) -> Result<Output, Stop>
    ensures told { IfSome (F.held folder.old)
        (λ files. IfOk result (λ output. Whole request.now files output.bytes.items output.end)) }
    ensures failed { IfErr result (λ stop. stop ≡ stops.ReadFault → HasRisen (F.faults folder.old) (F.faults folder.new)) }
    ensures counted { F.faults folder.old ≤ F.faults folder.new }
    ensures kept { F.held folder.new ≡ F.held folder.old }
{
    match request {
        Request::Graph { spec, tree } => graph_output(alloc, spec, tree, folder),
    }
}

/// The output of `graph`.
fn graph_output<F: Folder>(
    alloc: Global,
    spec: &Text,
    tree: &Text,
    folder: &mut F,
) -> Result<Output, Stop>
    ensures told { IfSome (F.held folder.old) (λ files. IfOk result
        (λ output. IsGraphOutput (get files spec.now) (get files tree.now) output.bytes.items output.end)) }
    ensures failed { IfErr result (λ stop. stop ≡ stops.ReadFault → HasRisen (F.faults folder.old) (F.faults folder.new)) }
    ensures counted { F.faults folder.old ≤ F.faults folder.new }
    ensures kept { F.held folder.new ≡ F.held folder.old }
{
    let spec = match read_specification(alloc, folder, spec.as_str())? {
        Read::Accepted(spec) => spec,
        Read::Refused(bytes) => return Ok(refusal(bytes)),
    };
    let tree = match read_tree(alloc, folder, tree.as_str(), &spec)? {
        Read::Accepted(tree) => tree,
        Read::Refused(bytes) => return Ok(refusal(bytes)),
    };
    let bytes = draw(alloc, &spec, &tree)?;
    let end = End::Done;
    Ok(Output { bytes, end })
}

/// The output that is the line of a refused file.
fn refusal(bytes: Vec<u8>) -> Output
    ensures { (result.bytes.items ≡ bytes.items) × (result.end ≡ End.Refused) }
{
    let end = End::Refused;
    Output { bytes, end }
}

/// The text of the graph of a tree.
fn draw(alloc: Global, spec: &TypedSpec, tree: &Term) -> Result<Vec<u8>, AllocError>
    requires { term_size tree.now < 2 ^ 32 }
    ensures { IfOk result (λ bytes. GraphText spec.now.spec tree.now bytes.items) }
{
    let graph = plain_graph(alloc, spec, tree)?;
    print_graph(alloc, &graph.nodes, &graph.edges)
}
