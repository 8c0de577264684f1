// Names of which three are shown.
ghost use Rattle.std.specs.Prelude.{◌≡◌, ◌∷◌, ◌++◌, ℕ, IfOk, OnOk, [], List as Seq};
ghost use Rattle.monitor_words.specs.calls.Values.{first_names};

use armus_base::{List, NoMemory};
use monitor_words::ShownNames;
use std::alloc::Global;

/// No name.
pub(crate) fn no_names(alloc: Global) -> ShownNames
    ensures { result ≡ first_names [] }
{
    ShownNames {
        shown: List::new(alloc),
        left: 0,
    }
}

/// A name in memory of its own.
pub(crate) fn own_name(alloc: Global, name: &[u8]) -> Result<List<u8>, NoMemory>
    ensures { IfOk result (λ own. own ≡ name.now) }
{
    let bytes = Vec::from_slice(alloc, name)?;
    Ok(List::from_vec(bytes))
}

/// One more name behind those that these are of. More than 2^32 are as want of memory.
pub(crate) fn add_name(alloc: Global, names: &mut ShownNames, name: &[u8]) -> Result<(), NoMemory>
    ensures { OnOk result ((all : Seq (Seq ℕ)) → names.old ≡ first_names all → names.new ≡ first_names (all ++ name.now ∷ [])) }
{
    if names.shown.as_slice().len() < 3 {
        names.shown.push(own_name(alloc, name)?)?;
    } else {
        names.left = names.left.checked_add(1).ok_or(NoMemory)?;
    }
    Ok(())
}

/// How many are left, as a value shows it. More than 2^32 - 1 are as want of memory.
pub(crate) fn count_left(count: usize) -> Result<u32, NoMemory>
    ensures { IfOk result (λ left. left ≡ count) }
{
    u32::try_from(count).map_err(|_| NoMemory)
}
