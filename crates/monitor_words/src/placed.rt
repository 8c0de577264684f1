// A task and where it is.
ghost use Rattle.std.specs.Prelude.{◌≡◌, ◌++◌, OnOk};
ghost use Rattle.monitor_words.specs.inside.ValueWords.{placed_words};

use crate::words::put_at;
use armus_base::{List, NoMemory, put_words};

/// A task and its place.
#[derive(Drop)]
pub struct PlacedTask {
    /// Its name.
    pub name: List<u8>,
    /// Its place; none where no line of it had one.
    pub place: Option<List<u8>>,
}

impl PlacedTask {
    // Appends the task: `main at Averaging.java:21`.
    pub(crate) fn put(&self, out: &mut Vec<u8>) -> Result<(), NoMemory>
        ensures { OnOk result (out.new.items ≡ out.old.items ++ placed_words self.now) }
    {
        put_words(out, self.name.as_slice())?;
        put_at(out, b" at ", &self.place)
    }
}
