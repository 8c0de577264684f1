// Writing a whole text.
ghost use Rattle.std.specs.Prelude.{◌≡◌, [], OnOk, OnErr};
ghost use Rattle.std.specs.Io.KnownBytes.{Appends};
ghost use Rattle.armus_base.specs.calls.Causes.{HasCause};
ghost use Rattle.armus_base.specs.ReadAll.{TookFront};

use crate::{Sink, WriteFault};

/// Where whole texts are written: each sink. A method of a trait may not call a function over `Sink`, which may be sent to a thread; it may call one over
/// `Writes`.
pub trait Writes {
    ghost use Rattle.std.specs.Prelude.{List, ℕ};
    ghost use Rattle.std.specs.declared.option.Option.{Option};

    /// The bytes that it has taken, where it tells them.
    ghost bytes: { Self → Option (List ℕ) };

    /// How often it has failed, up to 2^64 - 1.
    ghost failures: { Self → ℕ };

    /// Writes all of the text; an empty text leaves it as it was. WriteFault comes only where the count of failures rose in this call; then some first
    /// bytes of the text were taken.
    fn write_all(&mut self, text: &[u8]) -> Result<(), WriteFault>
        ensures ok { OnOk result (Appends (bytes self.old) (bytes self.new) text.now) }
        ensures err { OnErr result (TookFront (bytes self.old) (bytes self.new) text.now) }
        ensures cause { HasCause (failures self.old) (failures self.new) result }
        ensures empty { text.now ≡ [] → self.new ≡ self.old };
}

impl<K: Sink> Writes for K {
    ghost bytes = { K.taken };

    ghost failures = { K.faults };

    fn write_all(&mut self, text: &[u8]) -> Result<(), WriteFault> {
        let mut at = 0;
        while at < text.len() {
            match self.write(&text[at..]) {
                Ok(count) => at += count,
                Err(_) => return Err(WriteFault),
            }
        }
        Ok(())
    }
}

/// Writes all of the text; an empty text leaves the sink as it was. WriteFault comes only where the sink's count of faults rose in this call; then
/// some first bytes of the text were taken.
pub fn write_text<K: Sink>(out: &mut K, text: &[u8]) -> Result<(), WriteFault>
    ensures ok { OnOk result (Appends (K.taken out.old) (K.taken out.new) text.now) }
    ensures err { OnErr result (TookFront (K.taken out.old) (K.taken out.new) text.now) }
    ensures cause { HasCause (K.faults out.old) (K.faults out.new) result }
    ensures empty { text.now ≡ [] → out.new ≡ out.old }
{
    out.write_all(text)
}
