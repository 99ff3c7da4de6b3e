// What all parts of the archive share: how long a book may be, and the refusals.
#![tactic(auto)]

ghost use Rattle.std.specs.Prelude.{◌≡◌};
ghost use Rattle.book.specs.Lengths.{is_book_length};
ghost use Rattle.book.specs.Refusals.{refusal_number};

// The most words that a book has.
pub const MOST_WORDS: usize = 4096;

// What is refused. A refusal is told by its number.
#[derive(Clone, Copy, PartialEq, Eq, Debug)]
pub enum Refusal {
    // There is no such word.
    BeyondBook = 2,
    // No book has that length.
    BadLength = 7,
    // A window has no words, or some that its store has not.
    BadWindow = 8,
    // A tape ends too early.
    CutShort = 9,
    // A number on a tape is over 32 bits or has a shorter form.
    BadNumber = 10,
    // No manager, store or item goes by a number or a code on a tape.
    Unknown = 11,
    // A tape has more bytes than it may have.
    TooLong = 12,
    // A remark on a tape has a bad length or a byte that cannot be printed.
    BadRemark = 13,
}

// The number under which a refusal is told.
impl From<Refusal> for u8 {
    ghost from_gives = { λ refusal number. number ≡ refusal_number refusal };

    fn from(value: Refusal) -> u8 {
        value as u8
    }
}

// Whether a book may have so many words.
pub fn fits_book(length: usize) -> bool
    ensures { result ≡ is_book_length length }
{
    (1..=MOST_WORDS).contains(&length)
}
