// The number store.
ghost use Rattle.std.specs.Prelude.{[]};
ghost use Rattle.book.specs.Lengths.{is_book_length};

use crate::lent::{LentStore, MemoryCell};
use book::{Refusal, fits_book};

// A store whose words are numbers lent to it.
pub type NumberStore<'a> = LentStore<'a, u32>;

impl MemoryCell for u32 {
    ghost words = { λ numbers. numbers };

    ghost cells = { λ words. words };

    ghost left_over = { λ _. [] };

    ghost is_length = { is_book_length };

    fn are_book(memory: &[u32]) -> bool {
        fits_book(memory.len())
    }

    fn count(memory: &[u32]) -> usize {
        memory.len()
    }

    fn read(memory: &[u32], word: usize) -> Result<u32, Refusal> {
        memory.get(word).copied().ok_or(Refusal::BeyondBook)
    }

    fn write(memory: &mut [u32], word: usize, value: u32) -> Result<(), Refusal> {
        Self::read(memory, word)?;
        // By the index: of `get_mut` of a slice no clause says what the slice ends as.
        memory[word] = value;
        Ok(())
    }
}
