// What a pool wants of its records.
ghost use Rattle.std.specs.Prelude.{◌≡◌, ℕ};

use armus_base::TaskId;

/// A record of a task.
pub trait Named {
    // The number of its task.
    ghost number: { Self → ℕ };

    /// Its task.
    fn id(&self) -> TaskId
        ensures task { result.0 ≡ number self.now };
}
