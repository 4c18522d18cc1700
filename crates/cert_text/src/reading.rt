//! Reading a certificate.
ghost use Rattle.std.specs.Prelude.{◌≡◌, ◌<◌, [], IfErr, IfOk, length};
ghost use Rattle.line_theory.specs.Lines.{lines_of};
ghost use Rattle.cert_text.specs.declared.certificate.Certificate.{Certificate as TheCertificate};
ghost use Rattle.cert_text.specs.declared.place.Place.TheVariants.{Finished};
ghost use Rattle.cert_text.specs.Laws.{IsReadAs, IsRefusedAs};
ghost use Rattle.cert_text.specs.Lines.{at, start};
ghost use Rattle.cert_text.specs.Texts.{IsCertificate};
ghost use Rattle.cert_text.specs.inner.Moves.{IsRefused, Reads, Takes, at_line, kind_left, kind_without};

use crate::certificate::Certificate;
use crate::place::{CertFaultKind, Place, Progress};
use crate::reader::take_line;
use crate::refusal::{CertRefusal, LineFault};
use flow_term::List;
use line_theory::split_at;
use std::alloc::Global;

/// The certificate of which these bytes are the text. A fault exactly where no certificate has this text, at the first line that may not
/// stand in its place.
///
/// It goes once through the bytes, line by line, and takes memory for what was read alone, whatever the counts say.
pub fn read(alloc: Global, bytes: &[u8]) -> Result<Certificate, CertRefusal>
    ensures found { IfOk result (IsCertificate bytes.now) }
    ensures fault { IfErr result (IsRefusedAs bytes.now) }
    ensures only { (c : TheCertificate) → IsCertificate bytes.now c → IsReadAs result c }
{
    read_lines(alloc, bytes)
}

/// Reads line by line, until one may not stand in its place or none is left.
fn read_lines(alloc: Global, bytes: &[u8]) -> Result<Certificate, CertRefusal>
    ensures { Reads bytes.now result }
{
    let mut progress = nothing_read(alloc);
    let mut rest = bytes;
    let mut number: u64 = 1;
    while !rest.is_empty() {
        rest = read_line(alloc, &mut progress, rest, number)?;
        number += 1;
    }
    finish(progress, number)
}

fn nothing_read(alloc: Global) -> Progress
    ensures { result ≡ start }
{
    Progress {
        place: Place::Header,
        certificate: Certificate {
            edges: List::new(alloc),
            steps: List::new(alloc),
            values: List::new(alloc),
        },
    }
}

/// Takes the first line, which has this number. What stands behind it.
fn read_line<'a>(
    alloc: Global,
    progress: &mut Progress,
    rest: &'a [u8],
    number: u64,
) -> Result<&'a [u8], CertRefusal>
    requires { 0 < length rest.now }
    ensures taken { IfOk result (λ others. Takes progress.old rest.now others.now progress.new) }
    ensures refused { IfErr result (IsRefused progress.old (lines_of rest.now) number) }
{
    let Some((body, others)) = split_at(rest, b'\n') else {
        return Err(CertRefusal::Fault {
            line: number,
            kind: unended(progress.place),
        });
    };
    match take_line(alloc, progress, body) {
        Ok(()) => Ok(others),
        Err(fault) => Err(at_line(fault, number)),
    }
}

fn at_line(fault: LineFault, line: u64) -> CertRefusal
    ensures { result ≡ at_line fault line }
{
    match fault {
        LineFault::Fault(kind) => CertRefusal::Fault { line, kind },
        LineFault::NoMemory => CertRefusal::NoMemory,
    }
}

/// The kind of the fault where no line stands, or one without line feed.
fn unended(place: Place) -> CertFaultKind
    ensures { result ≡ kind_without place }
{
    match place {
        Place::Header => CertFaultKind::Header,
        Place::EdgeCount => CertFaultKind::Count,
        Place::Edges(left) => kind_left(left, CertFaultKind::Count),
        Place::Steps(left) => kind_left(left, CertFaultKind::Count),
        Place::Values(left) => kind_left(left, CertFaultKind::End),
        Place::Finished => CertFaultKind::End,
    }
}

/// The kind where so many entries are left.
fn kind_left(left: u64, none: CertFaultKind) -> CertFaultKind
    ensures { result ≡ kind_left left none }
{
    if left == 0 { none } else { CertFaultKind::Form }
}

/// The certificate, if nothing more is to come.
fn finish(progress: Progress, number: u64) -> Result<Certificate, CertRefusal>
    ensures done { IfOk result (λ c. progress ≡ at Finished c) }
    ensures missing { IfErr result (IsRefused progress [] number) }
{
    let Progress { place, certificate } = progress;
    if place != Place::Finished {
        return Err(CertRefusal::Fault {
            line: number,
            kind: unended(place),
        });
    }
    Ok(certificate)
}
