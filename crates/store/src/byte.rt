// The byte store.
ghost use Rattle.store.specs.Bytes.{bytes_left_over, bytes_of_words, is_byte_length, words_of_bytes};

use crate::lent::{LentStore, MemoryCell};
use book::{Refusal, fits_book};

// How many bytes a word takes.
pub const WORD_BYTES: usize = 4;

// A store whose words are bytes lent to it, four for each word, the one that counts most in front.
pub type ByteStore<'a> = LentStore<'a, u8>;

#[tactic(auto, using(crate::proofs::Fours::fours))]
impl MemoryCell for u8 {
    ghost words = { words_of_bytes };

    ghost cells = { bytes_of_words };

    ghost left_over = { bytes_left_over };

    ghost is_length = { is_byte_length };

    fn are_book(memory: &[u8]) -> bool {
        memory.len() % WORD_BYTES == 0 && fits_book(Self::count(memory))
    }

    fn count(memory: &[u8]) -> usize {
        memory.len() / WORD_BYTES
    }

    fn read(memory: &[u8], word: usize) -> Result<u32, Refusal> {
        let (words, _) = memory.as_chunks::<WORD_BYTES>();
        let bytes = words.get(word).ok_or(Refusal::BeyondBook)?;
        Ok(u32::from_be_bytes(*bytes))
    }

    fn write(memory: &mut [u8], word: usize, value: u32) -> Result<(), Refusal> {
        Self::read(memory, word)?;
        // By the range: of `as_chunks_mut` no clause says what the slice ends as.
        let place = WORD_BYTES * word;
        memory[place..place + WORD_BYTES].copy_from_slice(&value.to_be_bytes());
        Ok(())
    }
}
