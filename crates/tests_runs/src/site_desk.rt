// A keeper, and the text of what its calls have answered.
ghost use Rattle.std.specs.Prelude.{◌≡◌, ◌≤◌, ◌<◌, length};
ghost use Rattle.armus_base.specs.calls.Limits.{max_sites};

use adaptive::{Analysis, Used, Wanted};
use armus_base::NoMemory;
use sites::{KeepEnd, Keeper, check_sites};
use std::alloc::Global;
use tests_rows::{add_numbers, first_word, number, numbers};

/// A keeper of so many sites, and what it has told.
#[derive(Drop)]
pub(crate) struct Desk<K: Keeper> {
    keeper: K,
    sites: u32,
    told: String,
    ghost kept: { length (K.rows keeper) ≡ sites },
    ghost few: { 1 ≤ sites × sites ≤ max_sites },
}

// A call of `put`.
fn put_row<K: Keeper>(keeper: &mut K, site: u32, row: &[u8]) -> &'static str
    requires site { site < length (K.rows keeper.old) }
    ensures kept { length (K.rows keeper.new) ≡ length (K.rows keeper.old) }
{
    match keeper.put(site, row) {
        Ok(()) => "ok",
        Err(KeepEnd::Fault) => "fault",
        Err(KeepEnd::NoMemory) => "no memory",
    }
}

fn bytes_text(alloc: Global, bytes: &[u8]) -> Result<String, NoMemory> {
    let mut text = String::new(alloc);
    add_numbers(&mut text, bytes)?;
    Ok(text)
}

// A call of `get`.
fn get_row<K: Keeper>(alloc: Global, keeper: &mut K, site: u32) -> Result<String, NoMemory>
    requires site { site < length (K.rows keeper.old) }
    ensures kept { length (K.rows keeper.new) ≡ length (K.rows keeper.old) }
{
    match keeper.get(alloc, site) {
        Ok(Some(row)) => bytes_text(alloc, row.as_slice()),
        Ok(None) => Ok(String::from_str(alloc, "none")?),
        Err(KeepEnd::Fault) => Ok(String::from_str(alloc, "fault")?),
        Err(KeepEnd::NoMemory) => Err(NoMemory),
    }
}

// By which graph, of how many edges, an analysis is made, and those that it names.
fn analysis_text(alloc: Global, analysis: &Analysis) -> Result<String, NoMemory> {
    let graph = match analysis.used {
        Used::Wfg => "wfg",
        Used::Sg => "sg",
        Used::Grg => "grg",
    };
    let mut text = format!(in alloc; "{graph} {}", analysis.edges)?;
    for t in analysis.dead.as_slice() {
        write!(text, " t{}", t.0)?;
    }
    Ok(text)
}

impl<K: Keeper> Desk<K> {
    /// A keeper of so many sites that has told nothing.
    pub(crate) fn new(alloc: Global, keeper: K, sites: u32) -> Desk<K>
        requires kept { length (K.rows keeper) ≡ sites }
        requires few { 1 ≤ sites × sites ≤ max_sites }
    {
        Desk {
            keeper,
            sites,
            told: String::new(alloc),
        }
    }

    /// What was told.
    pub(crate) fn told(&self) -> &str {
        self.told.as_str()
    }

    fn tell(&mut self, word: &str) -> Result<(), NoMemory> {
        self.told.push_str(word.trim())?;
        self.told.push_str("; ")?;
        Ok(())
    }

    /// Puts a row.
    pub(crate) fn put(&mut self, site: u32, row: &[u8]) -> Result<(), NoMemory> {
        if site >= self.sites {
            return Err(NoMemory);
        }
        let word = put_row(&mut self.keeper, site, row);
        self.tell(word)
    }

    fn get(&mut self, alloc: Global, site: u32) -> Result<(), NoMemory> {
        if site >= self.sites {
            return Err(NoMemory);
        }
        let text = get_row(alloc, &mut self.keeper, site)?;
        self.tell(text.as_str())
    }

    fn check(&mut self, alloc: Global) -> Result<(), NoMemory> {
        match check_sites(alloc, &mut self.keeper, self.sites, Wanted::Auto) {
            Ok(analysis) if analysis.dead.as_slice().is_empty() => self.tell("nobody"),
            Ok(analysis) => self.tell(analysis_text(alloc, &analysis)?.as_str()),
            Err(_) => self.tell("no check"),
        }
    }

    /// Makes a call: `put` of a site and its bytes, `get` of a site, or `check`.
    pub(crate) fn call(&mut self, alloc: Global, text: &str) -> Result<(), NoMemory> {
        let (kind, rest) = first_word(text);
        let (site, bytes) = first_word(rest);
        match kind {
            "put" => {
                let row = numbers(alloc, bytes)?;
                self.put(number(site), row.as_slice())
            }
            "get" => self.get(alloc, number(site)),
            _ => self.check(alloc),
        }
    }
}
