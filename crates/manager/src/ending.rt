// What can be done with any manager, from its meaning alone.
ghost use Rattle.std.specs.Prelude.{◌≡◌};
ghost use Rattle.manager.specs.Ranks.{no_ranks};

use crate::{ContentionManager, JOBS};

// Tells a manager that all eight jobs have ended: no rank is left, and the next number stays.
#[tactic(auto, using(crate::proofs::Ended::all_ended))]
pub fn end_all<M: ContentionManager>(manager: &mut M)
    ensures { M.ranks manager.new ≡ no_ranks (M.ranks manager.old).next }
{
    for job in 0..JOBS {
        manager.ended(job);
    }
}
