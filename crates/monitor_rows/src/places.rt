// Places of those of the list.
ghost use Rattle.std.specs.Prelude.{◌≡◌, IfOk, bytes_eq};
ghost use Rattle.std.specs.Option.{option_copied, option_eq};

use armus_base::{List, NoMemory};
use std::alloc::Global;

/// A place in memory of its own, if there is one.
pub(crate) fn own_place(alloc: Global, place: Option<&[u8]>) -> Result<Option<List<u8>>, NoMemory>
    ensures { IfOk result (λ own. own ≡ option_copied place.entry) }
{
    match place {
        None => Ok(None),
        Some(place) => {
            let bytes = Vec::from_slice(alloc, place)?;
            Ok(Some(List::from_vec(bytes)))
        }
    }
}

/// Whether two have the same place, or none.
pub(crate) fn is_same_place(one: Option<&[u8]>, other: Option<&[u8]>) -> bool
    ensures { result ≡ option_eq bytes_eq (option_copied one.entry) (option_copied other.entry) }
{
    match one {
        None => other.is_none(),
        Some(place) => match other {
            None => false,
            Some(another) => place == another,
        },
    }
}
