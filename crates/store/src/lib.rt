// Stores: where the words of a book are kept.
#![tactic(auto)]

ghost use Rattle.std.specs.Prelude.{◌≡◌, ℕ, List, length, slice_set};
ghost use Rattle.store.specs.Grounds.{Ground};
ghost use Rattle.store.specs.Words.{Book, reading, writing};

use book::Refusal;

pub mod byte;
pub mod lent;
pub mod number;
pub mod opening;
pub mod swap;
pub mod window;

// A store means the words of a book: 1 to 4,096 of them, numbered from 0, each a 32-bit number. What is read and written is
// told by that list, whatever the store stands on. The length of the list never changes.
pub trait Store {
    // The words.
    ghost words: { Self → List ℕ };

    // What the store stands on, apart from the words. It never changes: each call that writes says so, since a type can keep
    // no fact of two of its values.
    ghost footing: { Self → Ground };

    // How many words there are.
    fn len(&self) -> usize
        ensures { result ≡ length (words self.now) };

    // The word; refused where there is none of that number.
    fn read(&self, word: usize) -> Result<u32, Refusal>
        ensures { result ≡ reading (words self.now) word };

    // Makes the word that value, and changes nothing else; refused, with nothing changed, where there is no such word (a
    // list stays as it is where it is `slice_set` past its end).
    fn write(&mut self, word: usize, value: u32) -> Result<(), Refusal>
        ensures answer { result ≡ writing (words self.old) word }
        ensures after { words self.new ≡ slice_set (words self.old) word value }
        ensures aside { footing self.new ≡ footing self.old };

    // The words are those of a book.
    ghost means_book: { (s : Self) → Book (words s) };
}
