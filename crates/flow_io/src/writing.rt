ghost use Rattle.std.specs.Prelude.{◌≡◌, ◌≤◌, OnErr, OnOk};
ghost use Rattle.flow_io.specs.Faults.{HasRisen};
ghost use Rattle.flow_io.specs.Pieces.{appended, GainsPartOf};

use crate::folder::Failed;
use crate::sink::Sink;

/// Writes all of the bytes, in as many calls as the sink wants. It takes no memory.
///
/// After `Failed`, which comes only where the sink's count of faults rose, the sink has taken a part of the bytes, from
/// their front, and not all of them.
pub fn write_all<K: Sink>(sink: &mut K, bytes: &[u8]) -> Result<(), Failed>
    ensures ok { OnOk result (K.written sink.new ≡ appended (K.written sink.old) bytes.now) }
    ensures err { OnErr result (GainsPartOf bytes.now (K.written sink.old) (K.written sink.new)) }
    ensures failed { OnErr result (HasRisen (K.faults sink.old) (K.faults sink.new)) }
    ensures counted { K.faults sink.old ≤ K.faults sink.new }
{
    let mut done = 0;
    while done < bytes.len() {
        let taken = sink.write(&bytes[done..])?;
        done += taken;
    }
    Ok(())
}
