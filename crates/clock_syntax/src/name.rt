// Names of clocks.

ghost use Rattle.std.specs.Prelude.{◌≡◌, IfOk};
ghost use Rattle.pl_syntax.specs.declared.scan.Language.TheVariants.{Clocks};
ghost use Rattle.pl_syntax.specs.calls.Words.{IsNameIn};
ghost use Rattle.clock_syntax.specs.calls.Grammar.{IsClockName};

use armus_base::NoMemory;
use pl_syntax::scan::Language;
use std::alloc::Global;
use std::marker::Model;

/// A name of a clock program, seen as its bytes. It has the form of a name: a lower-case letter, then lower-case letters,
/// digits and `_`, 32 bytes at most, and no keyword of the language of clocks.
#[derive(Debug, Drop)]
pub struct ClockName {
    bytes: Vec<u8>,
}

impl Model for ClockName {
    ghost use Rattle.std.specs.Prelude.{List, ℕ};
    ghost use Rattle.clock_syntax.specs.calls.Grammar.{IsClockName};

    ghost Value = { List ℕ };

    ghost view = { λ n. n.bytes.items };

    ghost invariant = { λ n. IsClockName n.bytes.items };
}

impl ClockName {
    // The name of these bytes in the language of clocks.
    pub(crate) fn new(
        alloc: Global,
        language: Language,
        bytes: &[u8],
    ) -> Result<ClockName, NoMemory>
        requires clocks { language ≡ Clocks }
        requires form { IsNameIn language bytes.now }
        ensures { IfOk result (λ x. x ≡ bytes.now) }
    {
        Ok(ClockName {
            bytes: Vec::from_slice(alloc, bytes)?,
        })
    }

    /// The bytes of the name.
    pub fn as_bytes(&self) -> &[u8]
        ensures bytes { result.now ≡ self.now }
        ensures form { IsClockName self.now }
    {
        &self.bytes
    }
}
