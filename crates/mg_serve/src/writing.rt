//! Whole pieces of output.

ghost use Rattle.std.specs.Prelude.{◌≡◌, ◌≤◌, OnOk};
ghost use Rattle.mg_serve.specs.Writing.{Wrote};

use mg_io::{IoError, Sink};
use mg_model::Fault;

/// Writes all of some bytes, in as many calls as it takes. After an error a front of them was written.
pub fn write_all<K: Sink>(out: &mut K, bytes: &[u8]) -> Result<(), Fault>
    ensures later { K.faults out.old ≤ K.faults out.new }
    ensures good { OnOk result (K.faults out.new ≡ K.faults out.old) }
    ensures wrote { Wrote (K.written out.old) (K.written out.new) (K.faults out.old) (K.faults out.new) bytes.now result }
{
    let mut rest = bytes;
    while !rest.is_empty() {
        let count = match out.write(rest) {
            Ok(count) => count,
            Err(IoError::NoMemory) => return Err(Fault::NoMemory),
            Err(IoError::Failed) => return Err(Fault::WriteFault),
        };
        let (_, behind) = rest.split_at(count);
        rest = behind;
    }
    Ok(())
}
