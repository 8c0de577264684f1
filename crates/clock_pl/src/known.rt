// What is known of an activity.

ghost use Rattle.std.specs.Prelude.{◌≡◌, ◌∷◌, [], ◌+◌, length, slice_set, slice_index_or, replicate, ◌-◌, ◌++◌, OnOk, IfOk, None};
ghost use Rattle.clock_pl.specs.inside.ClockChecker.{clocks_lengthened, marked_all};

use armus_base::PhaserId;
use pl_plan::Membership;
use std::alloc::{AllocError, Global};
use std::marker::Model;

// The clock of each name, by the name's number; the clocks and finishes on which the activity is registered; the clocks that are pending; and the finishes
// that govern it, the innermost first.
#[derive(Drop)]
pub(crate) struct KnownClocks {
    pub clocks: Vec<Option<PhaserId>>,
    pub members: Membership,
    pub pending: Membership,
    pub governing: Vec<PhaserId>,
}

impl Model for KnownClocks {
    ghost use Rattle.clock_pl.specs.inside.ClockChecker.{KeptKnown};

    ghost Value = { KeptKnown };

    ghost view = { λ k. record { clocks = k.clocks.items; members = k.members; pending = k.pending; governing = k.governing.items } };
}

impl KnownClocks {
    // No names, registered on nothing, and governed by no finish; it takes no memory.
    pub(crate) fn nothing(alloc: Global) -> KnownClocks
        ensures { result ≡ record { clocks = []; members = []; pending = []; governing = [] } }
    {
        KnownClocks {
            clocks: Vec::new(alloc),
            members: Membership::new(alloc),
            pending: Membership::new(alloc),
            governing: Vec::new(alloc),
        }
    }
}

// With nothing behind the end, up to n clocks at least.
pub(crate) fn lengthen_clocks(
    clocks: &mut Vec<Option<PhaserId>>,
    n: usize,
) -> Result<(), AllocError>
    ensures { OnOk result (clocks.new.items ≡ clocks_lengthened n clocks.old.items) }
{
    if n <= clocks.len() {
        return Ok(());
    }
    clocks.resize(n, None)
}

// Registered on these.
pub(crate) fn registered_on(alloc: Global, on: &[PhaserId]) -> Result<Membership, AllocError>
    ensures { IfOk result (λ row. row ≡ marked_all on.now []) }
{
    let mut row = Membership::new(alloc);
    for p in on {
        row.mark(*p, true)?;
    }
    Ok(row)
}
