// The ranks, in one text for all managers.
ghost use Rattle.std.specs.Prelude.{◌≡◌, true, length};
ghost use Rattle.manager.specs.Ranks.{Ranks, after_end, after_event, jobs, no_ranks, rank_of, yields_to};

use crate::JOBS;
use std::marker::Model;

// The ranks of the eight jobs, and the next number.
#[derive(Clone, Copy, Debug, PartialEq, Eq)]
pub struct RankTable {
    ranks: [Option<u32>; JOBS],
    next: u32,
}

// A table is seen as what a manager means.
impl Model for RankTable {
    ghost Value = { Ranks };

    ghost view = { λ table. record { of_jobs = table.ranks; next = table.next } };

    ghost inverse = { λ ranks. record { ranks = ranks.of_jobs; next = ranks.next } };

    ghost invariant = { λ table. length table.ranks ≡ jobs };
}

impl RankTable {
    // No job has a rank.
    pub fn new(next: u32) -> RankTable
        ensures { result ≡ no_ranks next }
    {
        RankTable {
            ranks: [None; JOBS],
            next,
        }
    }

    // Gives a job the next number, where it is a job without a rank and a number is left.
    pub fn give(&mut self, job: usize)
        ensures { self.new ≡ after_event true job self.old }
    {
        // The greatest number says that none is left, since any number may be the next one.
        // By its index: of an array that was lent to `get_mut` no proof knows what it holds afterwards.
        if let Some(None) = self.ranks.get(job)
            && self.next < u32::MAX
        {
            self.ranks[job] = Some(self.next);
            self.next += 1;
        }
    }

    // Takes a job's rank away.
    #[tactic(auto, using(crate::proofs::Outs::outs))]
    pub fn take_away(&mut self, job: usize)
        ensures { self.new ≡ after_end job self.old }
    {
        // By its index, as in `give`.
        if job < JOBS {
            self.ranks[job] = None;
        }
    }

    // The job's rank, if it has one.
    pub fn rank(&self, job: usize) -> Option<u32>
        ensures { result ≡ rank_of job self.now }
    {
        self.ranks.get(job).copied().flatten()
    }

    // The number that the next rank is.
    pub fn next(&self) -> u32
        ensures { result ≡ self.now.next }
    {
        self.next
    }

    // Whether the first job yields to the second: it has no rank, or the other's is lower.
    pub fn yields(&self, job: usize, other: usize) -> bool
        ensures { result ≡ yields_to (rank_of job self.now) (rank_of other self.now) }
    {
        self.rank(job).is_none_or(|mine| self.rank(other).is_some_and(|theirs| theirs < mine))
    }
}
