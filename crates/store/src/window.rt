// The window.
ghost use Rattle.std.specs.Prelude.{◌≡◌, true, length};
ghost use Rattle.book.specs.declared.Refusal.TheVariants.{BadWindow};
ghost use Rattle.store.specs.Openings.{Opening};
ghost use Rattle.store.specs.Windows.{around, is_inside, place_below, window};
ghost use Rattle.store.specs.Words.{Book};

use crate::Store;
use crate::opening::Unopened;
use book::Refusal;

// Some words of a store in a row, as a store of their own.
#[derive(Debug, Drop)]
pub struct Window<S: Store> {
    store: S,
    // The word of the store below with which the window begins.
    first: u32,
    // How many words the window has.
    count: u32,

    // All those words are there.
    ghost is_within: { is_inside first count (length (S.words store)) ≡ true },

    // They are those of a book.
    ghost is_book: { Book (window first count (S.words store)) },
}

impl<S: Store> Window<S> {
    // A store that means `count` words of the store below, from its word `first` on. First word and count are two parameters, here and
    // where windows are asked for: a struct of the two would stand between every caller and the numbers that it has.
    pub fn open(store: S, first: u32, count: u32) -> Result<Window<S>, Unopened<S>>
        ensures { Opening (is_inside first count (length (S.words store))) (λ s. (s.store ≡ store) × (s.first ≡ first) × (s.count ≡ count)) BadWindow store result }
    {
        if count >= 1 && first as usize + count as usize <= store.len() {
            Ok(Window {
                store,
                first,
                count,
            })
        } else {
            Err(Unopened {
                refusal: Refusal::BadWindow,
                back: store,
            })
        }
    }

    // Gives the window up for the store below it.
    pub fn close(self) -> S
        ensures { result ≡ self.store }
    {
        self.store
    }

    // The number in the store below of a word of the window; refused where there is no such word.
    fn place_below(&self, word: usize) -> Result<usize, Refusal>
        ensures { result ≡ place_below self.now.first self.now.count word }
    {
        if word < self.count as usize {
            Ok(self.first as usize + word)
        } else {
            Err(Refusal::BeyondBook)
        }
    }
}

impl<S: Store> Store for Window<S> {
    ghost words = { λ s. window s.first s.count (S.words s.store) };

    ghost footing = { λ s. around s.first s.count (S.words s.store) (S.Store.footing s.store) };

    ghost means_book = { λ s. s.is_book };

    fn len(&self) -> usize {
        self.count as usize
    }

    fn read(&self, word: usize) -> Result<u32, Refusal> {
        self.store.read(self.place_below(word)?)
    }

    #[tactic(auto, using(crate::proofs::Panes::set_within))]
    fn write(&mut self, word: usize, value: u32) -> Result<(), Refusal> {
        let place = self.place_below(word)?;
        self.store.write(place, value)
    }
}
