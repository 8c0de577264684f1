// Words of bits, 64 to each: bit n stands in word n / 64.
ghost use Rattle.std.specs.Prelude.{◌≡◌, ℕ, ◌/◌, ◌*◌, ◌+◌, ◌-◌, ◌<◌, ◌≤◌, ◌^◌, length, min, bit_and, IfOk, IsTrue, MatchBool, OnOk, slice_index};
ghost use Rattle.std.specs.Int.{bit_at};
ghost use Rattle.order_graph.specs.inside.Bits.{IsWithBit, bit_less, bit_of, tasks_by};

use armus_base::TaskId;
use std::alloc::{AllocError, Global};

// The word at a place; behind the end all bits are clear.
fn word_at(words: &[u64], at: usize) -> u64
    ensures { result ≡ slice_index words.now at }
{
    if at < words.len() { words[at] } else { 0 }
}

/// Whether bit `n` is set.
pub(crate) fn is_set(words: &[u64], n: u32) -> bool
    ensures { MatchBool result (bit_of words.now n ≡ 1) (bit_of words.now n ≡ 0) }
{
    word_at(words, (n / 64) as usize) >> (n % 64) & 1 == 1
}

/// Makes room for bit `n`.
pub(crate) fn make_room(words: &mut Vec<u64>, n: u32) -> Result<(), AllocError>
    requires few { length words.old.items ≤ 2 ^ 26 }
    ensures few { length words.new.items ≤ 2 ^ 26 }
    ensures same { (m : ℕ) → bit_of words.new.items m ≡ bit_of words.old.items m }
    ensures room { OnOk result (n / 64 < length words.new.items) }
{
    let at = (n / 64) as usize;
    'grow: while words.len() <= at {
        words.push(0)?;
    }
    Ok(())
}

/// Sets bit `n`, for which there is room.
pub(crate) fn set_bit(words: &mut [u64], n: u32)
    requires room { n / 64 < length words.old }
    ensures bits { IsWithBit words.old n 1 words.new }
{
    let at = (n / 64) as usize;
    words[at] = words[at] | 1 << (n % 64);
}

/// Clears bit `n`.
pub(crate) fn clear_bit(words: &mut [u64], n: u32)
    ensures bits { IsWithBit words.old n 0 words.new }
{
    let at = (n / 64) as usize;
    if at < words.len() {
        words[at] = words[at] & !(1 << (n % 64));
    }
}

// Clears each bit that is clear in other words, of which there are as many at least, and tells whether the words are then the others.
fn clear_others(words: &mut [u64], other: &[u64]) -> bool
    requires sized { length words.old ≤ length other.now }
    ensures sized { length words.new ≡ length words.old }
    ensures words { (j : ℕ) → j < length words.old → slice_index words.new j ≡ bit_and (slice_index words.old j) (slice_index other.now j) }
    ensures same { IsTrue result → words.new ≡ other.now }
{
    let mut same = words.len() == other.len();
    for k in 0..words.len() {
        let kept = words[k] & other[k];
        same = same && kept == other[k];
        words[k] = kept;
    }
    same
}

/// Clears each bit that is clear in other words; true only where the words are then the others.
pub(crate) fn keep_common(words: &mut Vec<u64>, other: &[u64]) -> bool
    ensures sized { length words.new.items ≤ length words.old.items }
    ensures bits { (m : ℕ) → bit_of words.new.items m ≡ min (bit_of words.old.items m) (bit_of other.now m) }
    ensures same { IsTrue result → words.new.items ≡ other.now }
{
    words.truncate(other.len());
    clear_others(words, other)
}

/// Whether the same bits are set in both.
pub(crate) fn is_same(words: &[u64], other: &[u64]) -> bool
    ensures { IsTrue result → (m : ℕ) → bit_of words.now m ≡ bit_of other.now m }
{
    let end = words.len().max(other.len());
    for k in 0..end {
        if word_at(words, k) != word_at(other, k) {
            return false;
        }
    }
    true
}

// Adds the tasks whose bits are set in the word at a place.
fn push_tasks(list: &mut Vec<TaskId>, at: usize, word: u64) -> Result<(), AllocError>
    requires few { at < 2 ^ 26 }
    ensures { (bits : ℕ → ℕ) → list.old.items ≡ tasks_by bits (64 * at) → ((k : ℕ) → k < 64 → bits (64 * at + k) ≡ bit_at word k) →
        OnOk result (list.new.items ≡ tasks_by bits (64 * at + 64)) }
{
    let first = at as u32 * 64;
    for k in 0..64 {
        if word >> k & 1 == 1 {
            list.push(TaskId(first + k))?;
        }
    }
    Ok(())
}

// The bits of a word that are clear in another one.
fn less(word: u64, other: u64) -> u64
    ensures { (i : ℕ) → i < 64 → bit_at result i ≡ min (bit_at word i) (1 - bit_at other i) }
{
    word & !other
}

/// The tasks whose bits are set in the first words and clear in the others, in order of number.
pub(crate) fn tasks_less(
    alloc: Global,
    words: &[u64],
    other: &[u64],
) -> Result<Vec<TaskId>, AllocError>
    requires few { length words.now ≤ 2 ^ 26 }
    ensures { IfOk result (λ list. list.items ≡ tasks_by (bit_less words.now other.now) (64 * length words.now)) }
{
    let mut list = Vec::new(alloc);
    for k in 0..words.len() {
        let word = less(words[k], word_at(other, k));
        if word != 0 {
            push_tasks(&mut list, k, word)?;
        }
    }
    Ok(list)
}
