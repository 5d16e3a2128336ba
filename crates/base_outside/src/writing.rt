//! A text is written whole.
ghost use Rattle.std.specs.Prelude.{◌≡◌, OnOk};
ghost use Rattle.std.specs.Io.KnownBytes.{Appends};
ghost use Rattle.base_outside.specs.Faults.{CountsFaults};
ghost use Rattle.base_outside.specs.Whole.{TakesFront};

use crate::ends::{Failed, Sink};

/// Writes all bytes and flushes the sink, which keeps nothing back then. Of an empty text nothing is
/// written, and the sink is flushed. It stops at the first call that fails: then a prefix of the
/// bytes was taken.
pub fn write_all<K: Sink>(sink: &mut K, bytes: &[u8]) -> Result<(), Failed>
    ensures all { OnOk result (Appends (K.taken sink.old) (K.taken sink.new) bytes.now) }
    ensures handed { OnOk result (K.kept_back sink.new ≡ 0) }
    ensures front { TakesFront (K.taken sink.old) (K.taken sink.new) bytes.now }
    ensures cause { CountsFaults (K.faults sink.old) (K.faults sink.new) result }
{
    let mut at = 0;
    while at < bytes.len() {
        let (_, rest) = bytes.split_at(at);
        at += sink.write(rest)?;
    }
    sink.flush()
}
