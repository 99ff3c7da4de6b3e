// Stores on lent memory.
ghost use Rattle.std.specs.Prelude.{◌≡◌, ℕ, ◌++◌, Bool, IsTrue, List, length, if◌then◌else◌, Err, slice_set};
ghost use Rattle.book.specs.declared.Refusal.TheVariants.{BadLength};
ghost use Rattle.store.specs.Grounds.{Lent};
ghost use Rattle.store.specs.Openings.{Opening};
ghost use Rattle.store.specs.Swaps.{lent_swapped, swap_answer};
ghost use Rattle.store.specs.Words.{Book, reading, writing};

use crate::Store;
use crate::opening::Unopened;
use crate::swap::swap_words;
use book::Refusal;

// What lent memory is made of: it says which words some cells are, and reads and writes them.
pub trait MemoryCell {
    // The words that cells are.
    ghost words: { List Self → List ℕ };

    // The cells that words are.
    ghost cells: { List ℕ → List Self };

    // The cells that are no part of a word.
    ghost left_over: { List Self → List Self };

    // Whether so many cells are the words of a book.
    ghost is_length: { ℕ → Bool };

    // Whether these cells are the words of a book, and nothing else.
    fn are_book(memory: &[Self]) -> bool
        ensures value { result ≡ is_length (length memory.now) }
        ensures means_book { IsTrue result → Book (words memory.now) }
        ensures is_exact { IsTrue result → cells (words memory.now) ≡ memory.now };

    // How many words these cells are; the cells are those of the words, and behind them those left over.
    fn count(memory: &[Self]) -> usize
        ensures value { result ≡ length (words memory.now) }
        ensures whole { cells (words memory.now) ++ left_over memory.now ≡ memory.now };

    // The word; refused where there is none of that number.
    fn read(memory: &[Self], word: usize) -> Result<u32, Refusal>
        ensures { result ≡ reading (words memory.now) word };

    // Makes the word that value, and changes nothing else; refused, with nothing changed, where there is no such word.
    fn write(memory: &mut [Self], word: usize, value: u32) -> Result<(), Refusal>
        ensures answer { result ≡ writing (words memory.old) word }
        ensures after { words memory.new ≡ slice_set (words memory.old) word value }
        ensures aside { left_over memory.new ≡ left_over memory.old }
        ensures is_exact { cells (words memory.old) ≡ memory.old → cells (words memory.new) ≡ memory.new };
}

// A store whose words are cells lent to it.
#[derive(Debug, Drop)]
pub struct LentStore<'a, T: MemoryCell> {
    memory: &'a mut [T],

    // The words are those of a book.
    ghost is_book: { Book (T.words memory.now) },

    // The memory is nothing but them.
    ghost is_exact: { T.cells (T.words memory.now) ≡ memory.now },
}

impl<'a, T: MemoryCell> LentStore<'a, T> {
    // A store that means the words that this memory is.
    pub fn open(memory: &'a mut [T]) -> Result<LentStore<'a, T>, Unopened<&'a mut [T]>>
        ensures { Opening (T.is_length (length memory.entry.now)) (λ s. s.memory ≡ memory.entry) BadLength memory.entry result }
    {
        if T::are_book(memory) {
            Ok(LentStore { memory })
        } else {
            Err(Unopened {
                refusal: Refusal::BadLength,
                back: memory,
            })
        }
    }

    // Gives the store up for the memory, which is the words that it meant.
    pub fn close(self) -> &'a mut [T]
        ensures { result ≡ self.entry.memory }
    {
        self.memory
    }
}

impl<'a, T: MemoryCell> Store for LentStore<'a, T> {
    ghost words = { λ s. T.words s.memory.now };

    ghost footing = { λ s. Lent s.memory.ghost_name };

    ghost means_book = { λ s. s.is_book };

    fn len(&self) -> usize {
        T::count(self.memory)
    }

    fn read(&self, word: usize) -> Result<u32, Refusal> {
        T::read(self.memory, word)
    }

    fn write(&mut self, word: usize, value: u32) -> Result<(), Refusal> {
        T::write(self.memory, word, value)
    }
}

// Swaps two of the words that some borrowed memory is, by a store that stands on it meanwhile: it ends as the store meant it.
// Where it is no book it is left as it was.
pub fn swap_lent<T: MemoryCell>(memory: &mut [T], a: usize, b: usize) -> Result<(), Refusal>
    ensures answer { result ≡ (if T.is_length (length memory.old) then swap_answer (T.words memory.old) a b else Err BadLength) }
    ensures after { memory.new ≡ lent_swapped T.is_length T.words T.cells memory.old a b }
{
    if !T::are_book(memory) {
        return Err(Refusal::BadLength);
    }
    // Not by `open`: of a loan that went through a `Result` the checker does not tell what the memory holds at the end.
    let mut store = LentStore { memory };
    swap_words(&mut store, a, b)
}
