// When a rank is given: all in which the managers differ.
ghost use Rattle.std.specs.Prelude.{◌≡◌, Bool};
ghost use Rattle.manager.specs.declared.event.Event.{Event};
ghost use Rattle.manager.specs.Rules.{greedy_gives, timid_gives, two_phase_gives};

use crate::event::Event;

// The number of words written at which two-phase gives a rank.
const TWO_PHASE_LENGTH: usize = 10;

// A rule for when a rank is given. It is a trait and no closure: each rule has a name and a definition.
pub trait RankRule {
    ghost gives: { Self → Event → Bool };

    // Whether a job that can have a rank gets one at this event.
    fn gives_rank(&self, event: Event) -> bool
        ensures { result ≡ gives self.now event };
}

// Never: every job yields to every other.
#[derive(Clone, Copy, Debug, PartialEq, Eq)]
pub struct Timid;

// When a job writes its tenth word, and at no other: small jobs yield at once, large ones go by seniority.
#[derive(Clone, Copy, Debug, PartialEq, Eq)]
pub struct TwoPhase;

// When a job begins: all jobs go by seniority.
#[derive(Clone, Copy, Debug, PartialEq, Eq)]
pub struct Greedy;

impl RankRule for Timid {
    ghost gives = { λ _ event. timid_gives event };

    fn gives_rank(&self, _event: Event) -> bool {
        false
    }
}

impl RankRule for TwoPhase {
    ghost gives = { λ _ event. two_phase_gives event };

    fn gives_rank(&self, event: Event) -> bool {
        matches!(event, Event::Wrote { length, .. } if length == TWO_PHASE_LENGTH)
    }
}

impl RankRule for Greedy {
    ghost gives = { λ _ event. greedy_gives event };

    fn gives_rank(&self, event: Event) -> bool {
        matches!(event, Event::Began { .. })
    }
}
