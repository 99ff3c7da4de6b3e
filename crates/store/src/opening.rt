// What comes of an opening that is refused.
ghost use Rattle.std.specs.Prelude.{◌≡◌};

use book::Refusal;

// Why no store was opened, and what it was to stand on, handed back as it was.
#[derive(Debug, PartialEq, Eq, Drop)]
pub struct Unopened<G> {
    pub refusal: Refusal,
    pub back: G,
}

impl<G: Drop> From<Unopened<G>> for Refusal {
    ghost from_gives = { λ x r. r ≡ x.refusal };

    fn from(value: Unopened<G>) -> Refusal {
        value.refusal
    }
}
