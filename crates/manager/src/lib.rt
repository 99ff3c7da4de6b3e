// Contention managers: which of two jobs yields where both want to write the same words.
#![tactic(auto)]

ghost use Rattle.std.specs.Prelude.{◌≡◌, Bool};
ghost use Rattle.manager.specs.declared.event.Event.{Event};
ghost use Rattle.manager.specs.declared.event.Event.TheVariants.{Began, Wrote};
ghost use Rattle.manager.specs.Ranks.{LawKept, Lawful, Ranks, after_end, after_event, rank_of, yields_to};
ghost use Rattle.manager.specs.Figures.{RankFigures};

pub mod ending;
pub mod event;
mod rank_table;
pub mod ranked;
pub mod rules;

// How many jobs there are; they are numbered from 0.
pub const JOBS: usize = 8;

// A manager means the ranks of eight jobs and the next rank number. Of two jobs, the one with the lower rank got it first
// and is the senior. What a manager does is told by these alone, but for one thing: when it gives a rank.
pub trait ContentionManager {
    // The ranks and the next number.
    ghost ranks: { Self → Ranks };

    // The manager's own rule: whether it gives a rank at an event, to a job that can have one.
    ghost gives: { Self → Event → Bool };

    // A job began a transaction.
    fn began(&mut self, job: usize)
        ensures { ranks self.new ≡ after_event (gives self.old (Began job)) job (ranks self.old) };

    // A job wrote a word that it had not written yet; it has now written so many.
    fn wrote(&mut self, job: usize, length: usize)
        ensures { ranks self.new ≡ after_event (gives self.old (Wrote job length)) job (ranks self.old) };

    // A job's transaction is over, and its rank with it.
    fn ended(&mut self, job: usize)
        ensures { ranks self.new ≡ after_end job (ranks self.old) };

    // Whether the first job yields to the second.
    fn yields(&self, job: usize, other: usize) -> bool
        ensures { result ≡ yields_to (rank_of job (ranks self.now)) (rank_of other (ranks self.now)) };

    // The job's rank, if it has one.
    fn rank(&self, job: usize) -> Option<u32>
        ensures { result ≡ rank_of job (ranks self.now) };

    // The number that the next rank is.
    fn next_rank(&self) -> u32
        ensures { result ≡ (ranks self.now).next };

    // Every rank is below the next number, and no two jobs have the same.
    ghost lawful: { (m : Self) → Lawful (ranks m) };
}

// Shows the figures by which the definition of yielding can be judged.
pub fn figures()
    ensures { RankFigures }
{}

// Shows that the law of the ranks is kept whatever is told of the jobs, whoever keeps the ranks.
#[tactic(auto, using(crate::proofs::Keeping::law_kept))]
pub fn show_law_kept()
    ensures { LawKept }
{}
