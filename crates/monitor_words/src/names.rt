// Names of which at most three are shown.
ghost use Rattle.std.specs.Prelude.{◌≡◌, ◌++◌, OnOk, codes, flat_map};
ghost use Rattle.std.specs.List.{join_by};
ghost use Rattle.monitor_words.specs.inside.ValueWords.{is_one, shown_names_words};

use crate::words::put_left;
use armus_base::{List, NoMemory, put_words};
use std::alloc::Global;

/// Names of which the first three at most are shown.
#[derive(Drop)]
pub struct ShownNames {
    /// Those that are shown.
    pub shown: List<List<u8>>,
    /// How many are left.
    pub left: u32,
}

// Appends a name behind another.
fn put_next(out: &mut Vec<u8>, name: &List<u8>) -> Result<(), NoMemory>
    ensures { OnOk result (out.new.items ≡ out.old.items ++ (codes ", " ++ name.now)) }
{
    put_words(out, b", ")?;
    put_words(out, name.as_slice())
}

// Appends names behind another.
fn put_others(out: &mut Vec<u8>, names: &[List<u8>]) -> Result<(), NoMemory>
    ensures { OnOk result (out.new.items ≡ out.old.items ++ flat_map (λ y. codes ", " ++ y) names.now) }
{
    for name in names {
        put_next(out, name)?;
    }
    Ok(())
}

// Appends names, a comma and a blank between each two.
fn put_list(out: &mut Vec<u8>, names: &[List<u8>]) -> Result<(), NoMemory>
    ensures { OnOk result (out.new.items ≡ out.old.items ++ join_by (λ x. x) (codes ", ") names.now) }
{
    match names {
        [first, others @ ..] => {
            put_words(out, first.as_slice())?;
            put_others(out, others)
        }
        [] => Ok(()),
    }
}

impl ShownNames {
    // Whether it is one name.
    pub(crate) fn is_one(&self) -> bool
        ensures { result ≡ is_one self.now }
    {
        self.shown.as_slice().len() == 1 && self.left == 0
    }

    // Appends the names: `a, b, c and 3 more`.
    pub(crate) fn put(&self, alloc: Global, out: &mut Vec<u8>) -> Result<(), NoMemory>
        ensures { OnOk result (out.new.items ≡ out.old.items ++ shown_names_words self.now) }
    {
        put_list(out, self.shown.as_slice())?;
        put_left(alloc, out, self.left)
    }
}
