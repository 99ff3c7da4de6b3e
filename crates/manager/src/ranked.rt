// A manager made of the ranks and a rule for when one is given.
ghost use Rattle.std.specs.Prelude.{◌≡◌};
ghost use Rattle.manager.specs.Ranks.{Lawful, after_event, no_ranks};

use crate::ContentionManager;
use crate::event::Event;
use crate::rank_table::RankTable;
use crate::rules::RankRule;

// The ranks of its table keep the law.
#[derive(Drop)]
pub struct Ranked<R> {
    table: RankTable,
    rule: R,
    ghost lawful: { Lawful table },
}

impl<R: RankRule> Ranked<R> {
    // A manager with that rule under which no job has a rank yet.
    pub fn new(rule: R, next: u32) -> Ranked<R>
        ensures rule { result.rule ≡ rule }
        ensures ranks { result.table ≡ no_ranks next }
    {
        Ranked {
            table: RankTable::new(next),
            rule,
        }
    }

    // Tells the manager of an event at a job: the job may get a rank.
    fn tell(&mut self, job: usize, event: Event)
        ensures rule { self.new.rule ≡ self.old.rule }
        ensures ranks { self.new.table ≡ after_event (R.gives self.old.rule event) job self.old.table }
    {
        if self.rule.gives_rank(event) {
            self.table.give(job);
        }
    }
}

impl<R: RankRule> ContentionManager for Ranked<R> {
    ghost ranks = { λ m. m.table };

    ghost gives = { λ m event. R.gives m.rule event };

    ghost lawful = { λ m. m.lawful };

    fn began(&mut self, job: usize) {
        self.tell(job, Event::Began { job });
    }

    fn wrote(&mut self, job: usize, length: usize) {
        self.tell(job, Event::Wrote { job, length });
    }

    fn ended(&mut self, job: usize) {
        self.table.take_away(job);
    }

    fn yields(&self, job: usize, other: usize) -> bool {
        self.table.yields(job, other)
    }

    fn rank(&self, job: usize) -> Option<u32> {
        self.table.rank(job)
    }

    fn next_rank(&self) -> u32 {
        self.table.next()
    }
}
