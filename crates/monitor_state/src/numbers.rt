// The numbers of those who are there, by name.
ghost use Rattle.std.specs.Prelude.{◌≡◌, ℕ, List, None, Some, OnOk, OnErr, if◌then◌else◌, bytes_eq, eqb};
ghost use Rattle.std.specs.List.{starts_with};
ghost use Rattle.monitor_state.specs.inside.Numbers.{number_by_name};

use armus_base::NoMemory;
use std::alloc::Global;
use std::collections::HashMap;

/// The number that the name t has, if it has one.
pub(crate) fn number_by_name(numbers: &HashMap<Vec<u8>, u64>, t: &[u8]) -> Option<u64>
    ensures { result ≡ number_by_name numbers.now t.now }
{
    numbers.get(t).copied()
}

/// Gives this number to the name t. Where memory is wanting, nothing is changed.
pub(crate) fn put_number(
    numbers: &mut HashMap<Vec<u8>, u64>,
    alloc: Global,
    t: &[u8],
    number: u64,
) -> Result<(), NoMemory>
    ensures put { OnOk result ((x : List ℕ) → number_by_name numbers.new x ≡ (if bytes_eq t.now x then Some number else number_by_name numbers.old x)) }
    ensures kept { OnErr result ((x : List ℕ) → number_by_name numbers.new x ≡ number_by_name numbers.old x) }
{
    let name = Vec::from_slice(alloc, t)?;
    numbers.insert(name, number)?;
    Ok(())
}

/// The name t has no number any more.
pub(crate) fn remove_number(numbers: &mut HashMap<Vec<u8>, u64>, t: &[u8])
    ensures { (x : List ℕ) → number_by_name numbers.new x ≡ (if bytes_eq t.now x then None else number_by_name numbers.old x) }
{
    numbers.remove(t);
}

/// No name that begins so has a number any more.
pub(crate) fn remove_numbers(numbers: &mut HashMap<Vec<u8>, u64>, beginning: &[u8])
    ensures { (x : List ℕ) → number_by_name numbers.new x ≡ (if starts_with eqb x beginning.now then None else number_by_name numbers.old x) }
{
    numbers.retain(|name, _| !name.as_slice().starts_with(beginning));
}
