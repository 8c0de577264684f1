// The words for tasks and phasers: a name alone where it means one thing, and else with the number.
ghost use Rattle.std.specs.Prelude.{◌≡◌, ◌++◌, IfOk, OnOk, codes, decimal, option_copied, slice_get};
ghost use Rattle.std.specs.List.{list_all};
ghost use Rattle.pl_syntax.specs.Words.{is_digit};
ghost use Rattle.report.specs.Words.{task_word};
ghost use Rattle.explain_tasks.specs.Names.{are_digits_alone, is_like_number, means_one, named_words, named_phaser_words, task_name, named_task_words};

use armus_base::{NoMemory, PhaserId, TaskId, put_words};
use explain_facts::{GivenName, GivenNames};
use std::alloc::Global;

// Whether a byte is a digit.
fn is_digit(b: u8) -> bool
    ensures { result ≡ is_digit b }
{
    matches!(b, b'0'..=b'9')
}

// Whether these are digits.
fn are_all_digits(word: &[u8]) -> bool
    ensures { result ≡ list_all is_digit word.now }
{
    word.iter().all(|b| is_digit(*b))
}

// Whether these are a digit and more digits.
fn are_digits_alone(word: &[u8]) -> bool
    ensures { result ≡ are_digits_alone word.now }
{
    match word {
        [] => false,
        [_, ..] => are_all_digits(word),
    }
}

// Whether a name has the form of a number of a task or a phaser.
fn is_like_number(name: &[u8]) -> bool
    ensures { result ≡ is_like_number name.now }
{
    match name {
        [] => false,
        [first, digits @ ..] => (*first == b't' || *first == b'p') && are_digits_alone(digits),
    }
}

// Whether a name means one thing, which has this number.
fn means_one(number: &[u8], named: &GivenName) -> bool
    ensures { result ≡ means_one number.now named.now }
{
    let name = named.name.as_slice();
    named.is_sole && (name == number || !is_like_number(name))
}

/// Appends what has this number, or these, and this name.
pub(crate) fn put_named_words(
    out: &mut Vec<u8>,
    number: &[u8],
    named: Option<&GivenName>,
) -> Result<(), NoMemory>
    ensures { OnOk result (out.new.items ≡ out.old.items ++ named_words number.now (option_copied named.entry)) }
{
    let Some(named) = named else {
        return put_words(out, number);
    };
    put_words(out, named.name.as_slice())?;
    if means_one(number, named) {
        return Ok(());
    }
    put_words(out, b" (")?;
    put_words(out, number)?;
    put_words(out, b")")
}

/// The name of a task, if it has one.
pub(crate) fn task_name(names: &GivenNames, t: TaskId) -> Option<&GivenName>
    ensures { option_copied result ≡ task_name names.now t.0 }
{
    if t.0 == 0 {
        return None;
    }
    names.tasks.as_slice().get(t.0 as usize - 1)
}

// The name of a phaser.
fn phaser_name(names: &GivenNames, p: PhaserId) -> Option<&GivenName>
    ensures { option_copied result ≡ slice_get names.now.phasers p.0 }
{
    names.phasers.as_slice().get(p.0 as usize)
}

// The number of a task.
fn task_number(alloc: Global, t: u32) -> Result<Vec<u8>, NoMemory>
    ensures { IfOk result (λ v. v.items ≡ task_word t) }
{
    let mut out = Vec::new(alloc);
    put_task_number(alloc, &mut out, t)?;
    Ok(out)
}

/// Appends the number of a task: `t3`.
pub(crate) fn put_task_number(alloc: Global, out: &mut Vec<u8>, t: u32) -> Result<(), NoMemory>
    ensures { OnOk result (out.new.items ≡ out.old.items ++ task_word t) }
{
    let text = format!(in alloc; "t{t}")?;
    out.extend_from_slice(text.as_bytes())?;
    Ok(())
}

// The number of a phaser.
fn phaser_number(alloc: Global, q: u32) -> Result<Vec<u8>, NoMemory>
    ensures { IfOk result (λ v. v.items ≡ codes "p" ++ decimal q) }
{
    let mut out = Vec::new(alloc);
    let text = format!(in alloc; "p{q}")?;
    out.extend_from_slice(text.as_bytes())?;
    Ok(out)
}

/// Appends a task: `worker`, `worker (t3)`, or `t0`.
pub fn put_task_words(
    alloc: Global,
    names: &GivenNames,
    out: &mut Vec<u8>,
    t: TaskId,
) -> Result<(), NoMemory>
    ensures { OnOk result (out.new.items ≡ out.old.items ++ named_task_words names.now t.0) }
{
    let number = task_number(alloc, t.0)?;
    put_named_words(out, &number, task_name(names, t))
}

/// Appends a phaser: `left`, or `left (p0)`.
pub fn put_phaser_words(
    alloc: Global,
    names: &GivenNames,
    out: &mut Vec<u8>,
    p: PhaserId,
) -> Result<(), NoMemory>
    ensures { OnOk result (out.new.items ≡ out.old.items ++ named_phaser_words names.now p.0) }
{
    let number = phaser_number(alloc, p.0)?;
    put_named_words(out, &number, phaser_name(names, p))
}
