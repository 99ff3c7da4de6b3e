// What can be done with any store, from its meaning alone.
ghost use Rattle.std.specs.Prelude.{◌≡◌};
ghost use Rattle.store.specs.Swaps.{swap_answer, swapped};

use crate::Store;
use book::Refusal;

// Makes each of two words what the other was, and changes nothing else; refused, with nothing changed, where one of the
// two is missing.
pub fn swap_words<S: Store>(store: &mut S, a: usize, b: usize) -> Result<(), Refusal>
    ensures answer { result ≡ swap_answer (S.words store.old) a b }
    ensures after { S.words store.new ≡ swapped (S.words store.old) a b }
    ensures aside { S.footing store.new ≡ S.footing store.old }
{
    let first = store.read(a)?;
    let second = store.read(b)?;
    store.write(a, second)?;
    store.write(b, first)
}
