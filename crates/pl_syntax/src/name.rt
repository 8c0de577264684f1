// Names of tasks and phasers.

ghost use Rattle.std.specs.Prelude.{◌≡◌, IfOk};
ghost use Rattle.pl_syntax.specs.declared.scan.Language.TheVariants.{Phasers};
ghost use Rattle.pl_syntax.specs.calls.Words.{IsName, IsNameIn};

use crate::scan::Language;
use armus_base::NoMemory;
use std::alloc::Global;
use std::marker::Model;

/// A name of a program, seen as its bytes. It has the form of a name: a lower-case letter, then lower-case letters,
/// digits and `_`, 32 bytes at most, and no keyword.
#[derive(Debug, Drop)]
pub struct Name {
    bytes: Vec<u8>,
}

impl Model for Name {
    ghost use Rattle.std.specs.Prelude.{List, ℕ};
    ghost use Rattle.pl_syntax.specs.calls.Words.{IsName};

    ghost Value = { List ℕ };

    ghost view = { λ n. n.bytes.items };

    ghost invariant = { λ n. IsName n.bytes.items };
}

impl Name {
    // The name of these bytes in PL.
    pub(crate) fn new(alloc: Global, language: Language, bytes: &[u8]) -> Result<Name, NoMemory>
        requires pl { language ≡ Phasers }
        requires form { IsNameIn language bytes.now }
        ensures { IfOk result (λ x. x ≡ bytes.now) }
    {
        Ok(Name {
            bytes: Vec::from_slice(alloc, bytes)?,
        })
    }

    /// The bytes of the name.
    pub fn as_bytes(&self) -> &[u8]
        ensures bytes { result.now ≡ self.now }
        ensures form { IsName self.now }
    {
        &self.bytes
    }
}
