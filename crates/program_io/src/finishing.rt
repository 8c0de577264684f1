// Writing what a program answers.
ghost use Rattle.std.specs.Prelude.{◌≡◌};
ghost use Rattle.program_io.specs.calls.ExitNumbers.{number_of_status};
ghost use Rattle.program_io.specs.calls.Passages.{passage};
ghost use Rattle.program_io.specs.calls.Writing.{Finished};

use crate::exit_status::ExitStatus;
use armus_base::{Sink, write_text};

/// Writes the text and answers the status, or `WriteFailed` where a write failed.
pub fn finish<K: Sink>(out: &mut K, text: &[u8], status: ExitStatus) -> ExitStatus
    ensures done { Finished (passage K.taken K.faults out.old out.new) text.now (number_of_status status) (number_of_status result) }
    ensures status { number_of_status result ≡ 4 → number_of_status status ≡ 4 }
    ensures memory { number_of_status result ≡ 6 → number_of_status status ≡ 6 }
{
    match write_text(out, text) {
        Ok(()) => status,
        Err(_) => ExitStatus::WriteFailed,
    }
}
