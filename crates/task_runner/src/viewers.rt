// Who makes passes over all sites, beside the rounds of a run.
ghost use Rattle.std.specs.Prelude.{◌≡◌, length};
ghost use Rattle.sites.specs.calls.Keeping.{count_after};
ghost use Rattle.task_runner.specs.inside.SiteRounds.{AreWatching};

use crate::beside::Beside;
use adaptive::Wanted;
use armus_base::NoMemory;
use board::{Board, ViewSeat};
use board_runs::Calls;
use sites::{KeepEnd, KeepsRows, pass_over};
use std::alloc::Global;

/// The viewers of the sites of a run, one for each site, in order.
#[derive(Drop)]
pub(crate) struct Viewers {
    pub(crate) views: Vec<ViewSeat>,
    /// The graph that is wanted.
    pub(crate) wanted: Wanted,
}

impl<K: KeepsRows> Beside<K> for Viewers {
    ghost use Rattle.std.specs.Prelude.{◌≡◌, Result, Ok, Err, true, length};
    ghost use Rattle.std.proofs.Common.{refl, subst, ap, ◌∙◌};
    ghost use Rattle.sites.specs.declared.ends.KeepEnd.TheVariants.{NoMemory};
    ghost use Rattle.sites.specs.calls.Keeping.{count_after};
    ghost use Rattle.task_runner.specs.inside.SiteRounds.{AreWatching};

    type Early = KeepEnd;

    ghost there = { true };

    ghost fits = { λ f x a. AreWatching f (length (K.kept a)) x.views.items (K.kept a) };

    ghost passes = { λ f x a y b r. AreWatching f (length (K.kept a)) y.views.items (K.kept b) × (K.failures b ≡ count_after r (K.failures a)) };

    ghost no_memory = { NoMemory };

    ghost none = { λ f x a fits. (fits, refl) };

    ghost more = { λ f x y z a b c r p q. (subst (λ n. AreWatching f n z.views.items (K.kept c)) p.0.kept q.0, q.1 ∙ ap (count_after r) p.1) };

    ghost wanting = { λ f x y a b fits p. p };

    fn is_there(&self) -> bool {
        true
    }

    fn pass<C: Calls>(
        &mut self,
        alloc: Global,
        board: &Board,
        gate: &C,
        out: &mut K,
    ) -> Result<(), KeepEnd> {
        let _ = gate;
        pass_over_all(alloc, &mut self.views, board, out, self.wanted)
    }

    fn early(error: NoMemory) -> KeepEnd {
        KeepEnd::from(error)
    }
}

// One pass over all sites.
fn pass_over_all<K: KeepsRows>(
    alloc: Global,
    views: &mut Vec<ViewSeat>,
    board: &Board,
    keeper: &mut K,
    wanted: Wanted,
) -> Result<(), KeepEnd>
    requires watching { AreWatching board.now (length (K.kept keeper.old)) views.old.items (K.kept keeper.old) }
    ensures watching { AreWatching board.now (length (K.kept keeper.old)) views.new.items (K.kept keeper.new) }
    ensures count { K.failures keeper.new ≡ count_after result (K.failures keeper.old) }
{
    pass_over(alloc, views.as_mut_slice(), board, keeper, wanted)?;
    Ok(())
}
