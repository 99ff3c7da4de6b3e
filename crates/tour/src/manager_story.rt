// One story told to every contention manager.
ghost use Rattle.std.specs.Prelude.{◌≡◌, OnOk};
ghost use Rattle.manager.specs.Ranks.{Ranks, no_ranks};
ghost use Rattle.tour.specs.ManagerSteps.{ToldThrough, answer_of, ranks_after};

use manager::ending::end_all;
use manager::ranked::Ranked;
use manager::rules::{Greedy, RankRule, Timid, TwoPhase};
use manager::{ContentionManager, JOBS};
use std::{fmt, io};

// What a manager can be told or asked.
// A step is data and no closure: it is printed, and definitions go by its cases. Each is a call of its own, so that the first
// two are no `Event` of the manager's.
#[derive(Clone, Copy, Debug, PartialEq, Eq)]
pub enum ManagerStep {
    Began { job: usize },
    Wrote { job: usize, length: usize },
    Ended { job: usize },
    Yields { job: usize, other: usize },
}

impl fmt::Display for ManagerStep {
    fn fmt<W: fmt::Write>(&self, f: &mut fmt::Formatter<W>) -> fmt::Result {
        match *self {
            ManagerStep::Began { job } => write!(f, "began {job}"),
            ManagerStep::Wrote { job, length } => write!(f, "wrote {job} {length}"),
            ManagerStep::Ended { job } => write!(f, "ended {job}"),
            ManagerStep::Yields { job, other } => write!(f, "yields {job} {other}"),
        }
    }
}

// A manager's ranks, job after job, and its next number.
#[derive(Drop)]
struct RankLine<'a, M>(&'a M);

impl<M: ContentionManager> fmt::Display for RankLine<'_, M> {
    fn fmt<W: fmt::Write>(&self, f: &mut fmt::Formatter<W>) -> fmt::Result {
        write!(f, "ranks")?;
        for job in 0..JOBS {
            match self.0.rank(job) {
                Some(rank) => write!(f, " {rank}")?,
                None => write!(f, " -")?,
            }
        }
        let next = self.0.next_rank();
        write!(f, ", next {next}")
    }
}

// Tells a manager something, or asks it; the answer to a question is yes or no.
fn tell<M: ContentionManager>(manager: &mut M, step: ManagerStep) -> Option<bool>
    ensures answer { result ≡ answer_of step (M.ranks manager.old) }
    ensures after { M.ranks manager.new ≡ ranks_after (M.gives manager.old) step (M.ranks manager.old) }
{
    match step {
        ManagerStep::Began { job } => manager.began(job),
        ManagerStep::Wrote { job, length } => manager.wrote(job, length),
        ManagerStep::Ended { job } => manager.ended(job),
        ManagerStep::Yields { job, other } => return Some(manager.yields(job, other)),
    }
    None
}

// Tells a manager one step, and prints what it answers or the ranks after it.
fn show_step<M: ContentionManager>(
    rt: &impl Print,
    manager: &mut M,
    step: ManagerStep,
) -> io::Result<()>
    ensures { M.ranks manager.new ≡ ranks_after (M.gives manager.old) step (M.ranks manager.old) }
{
    match tell(manager, step) {
        Some(true) => println!(rt; "  {step}: yes"),
        Some(false) => println!(rt; "  {step}: no"),
        None => {
            let line = RankLine(&*manager);
            println!(rt; "  {step}: {line}")
        }
    }
}

// Tells a manager a story and prints how it goes. At the end all jobs have ended.
#[tactic(auto, using(crate::proofs::Told::told))]
fn show_story<M: ContentionManager>(
    rt: &impl Print,
    manager: &mut M,
    story: &[ManagerStep],
) -> io::Result<()>
    ensures { OnOk result ((last : Ranks) × ToldThrough story.now (M.ranks manager.old) last × (M.ranks manager.new ≡ no_ranks last.next)) }
{
    for &step in story {
        show_step(rt, manager, step)?;
    }
    end_all(manager);
    let line = RankLine(&*manager);
    println!(rt; "  all ended: {line}")
}

// The first rank number: two ranks can be given before the numbers run out.
const FIRST_RANK: u32 = u32::MAX - 2;

// What is told to every manager.
const STORY: &[ManagerStep] = &[
    ManagerStep::Began { job: 0 },
    ManagerStep::Began { job: 0 },
    ManagerStep::Began { job: 1 },
    ManagerStep::Yields { job: 0, other: 1 },
    ManagerStep::Yields { job: 1, other: 0 },
    ManagerStep::Wrote { job: 1, length: 9 },
    ManagerStep::Wrote { job: 1, length: 10 },
    ManagerStep::Wrote { job: 1, length: 10 },
    ManagerStep::Wrote { job: 0, length: 10 },
    ManagerStep::Yields { job: 0, other: 1 },
    ManagerStep::Yields { job: 1, other: 0 },
    ManagerStep::Began { job: 2 },
    ManagerStep::Wrote { job: 2, length: 10 },
    ManagerStep::Yields { job: 2, other: 0 },
    ManagerStep::Yields { job: 0, other: 2 },
    ManagerStep::Ended { job: 1 },
    ManagerStep::Yields { job: 0, other: 1 },
    ManagerStep::Began { job: 8 },
    ManagerStep::Yields { job: 8, other: 0 },
    ManagerStep::Yields { job: 0, other: 8 },
];

// Tells the story to a new manager with this rule, after the manager's name.
fn show_rule<R: RankRule + Drop>(rt: &impl Print, name: &str, rule: R) -> io::Result<()> {
    println!(rt; "{name}")?;
    show_story(rt, &mut Ranked::new(rule, FIRST_RANK), STORY)
}

// Tells the story to every manager.
pub fn show(rt: &impl Print) -> io::Result<()> {
    show_rule(rt, "Timid", Timid)?;
    show_rule(rt, "two-phase", TwoPhase)?;
    show_rule(rt, "Greedy", Greedy)
}
