//! Writing a certificate.
ghost use Rattle.std.specs.Prelude.{◌≡◌, ◌++◌, IfOk, OnOk};
ghost use Rattle.std.specs.List.{flat_map};
ghost use Rattle.cert_text.specs.Texts.{HasTexts, IsCertificate, cert_text, origin_text, step_line};

use crate::certificate::Certificate;
use crate::holding::{edges_hold, steps_hold, values_hold};
use flow_lines::{push_count, push_edges, push_node, push_values};
use flow_term::List;
use std::alloc::{AllocError, Global};
use tree_constraints::{Key, Origin};

/// The text of a certificate that has one. Fails only for want of memory.
pub fn write(alloc: Global, certificate: &Certificate) -> Result<List<u8>, AllocError>
    requires { HasTexts certificate.now }
    ensures { IfOk result (λ bytes. IsCertificate bytes certificate.now) }
{
    edges_hold(certificate.edges.as_slice());
    steps_hold(certificate.steps.as_slice());
    values_hold(certificate.values.as_slice());
    Ok(List::from_vec(written(alloc, certificate)?))
}

fn written(alloc: Global, certificate: &Certificate) -> Result<Vec<u8>, AllocError>
    ensures { IfOk result (λ bytes. bytes.items ≡ cert_text certificate.now) }
{
    let mut bytes = Vec::new(alloc);
    bytes.extend_from_slice(b"flowcert 1\n")?;
    push_count(&mut bytes, "edges ", certificate.edges.len())?;
    push_edges(&mut bytes, certificate.edges.as_slice())?;
    push_count(&mut bytes, "steps ", certificate.steps.len())?;
    push_steps(&mut bytes, certificate.steps.as_slice())?;
    push_count(&mut bytes, "values ", certificate.values.len())?;
    push_values(&mut bytes, certificate.values.as_slice())?;
    bytes.extend_from_slice(b"end\n")?;
    Ok(bytes)
}

fn push_steps(bytes: &mut Vec<u8>, steps: &[Key]) -> Result<(), AllocError>
    ensures { OnOk result (bytes.new.items ≡ bytes.old.items ++ flat_map step_line steps.now) }
{
    for step in steps {
        push_step(bytes, step)?;
    }
    Ok(())
}

fn push_step(bytes: &mut Vec<u8>, step: &Key) -> Result<(), AllocError>
    ensures { OnOk result (bytes.new.items ≡ bytes.old.items ++ step_line step.now) }
{
    bytes.extend_from_slice(step.target.property.as_str().as_bytes())?;
    bytes.extend_from_slice(b" ")?;
    push_node(bytes, &step.target.node)?;
    bytes.extend_from_slice(b" ")?;
    push_origin(bytes, &step.origin)?;
    bytes.extend_from_slice(b"\n")
}

fn push_origin(bytes: &mut Vec<u8>, origin: &Origin) -> Result<(), AllocError>
    ensures { OnOk result (bytes.new.items ≡ bytes.old.items ++ origin_text origin.now) }
{
    match origin {
        Origin::Boundary => bytes.extend_from_slice(b"boundary"),
        Origin::Along(node) => push_node(bytes, node),
    }
}
