// The kinds that a tape names by numbers.
ghost use Rattle.std.specs.Prelude.{◌≡◌};
ghost use Rattle.tape.specs.Kinds.{named, manager_of, store_of, item_kind_of, most_words};
ghost use Rattle.tape.specs.Headings.{fits_store};

use book::MOST_WORDS;

// The word of the byte store below it at which a window begins.
const WINDOW_START: usize = 16;

// The contention managers, which decide which job yields to which.
#[derive(Clone, Copy, PartialEq, Eq, Debug)]
pub enum ManagerKind {
    Timid,
    TwoPhase,
    Greedy,
}

// The stores, in which the book's words are kept.
#[derive(Clone, Copy, PartialEq, Eq, Debug)]
pub enum StoreKind {
    // 32-bit numbers.
    Number,
    // Bytes, four to a word.
    Byte,
    // The words from `WINDOW_START` on of a byte store that has as many words more.
    Window,
}

// The kinds of items.
#[derive(Clone, Copy, PartialEq, Eq, Debug)]
pub enum ItemKind {
    Start,
    Read,
    Write,
    Seal,
    Put,
    Quit,
    Look,
    Remark,
}

// No kind goes by that number.
#[derive(Clone, Copy, PartialEq, Eq, Debug)]
pub struct UnknownKind;

impl TryFrom<u32> for ManagerKind {
    type Error = UnknownKind;

    ghost try_from_gives = { λ number kind. kind ≡ named (manager_of number) };

    fn try_from(number: u32) -> Result<ManagerKind, UnknownKind> {
        match number {
            0 => Ok(ManagerKind::Timid),
            1 => Ok(ManagerKind::TwoPhase),
            2 => Ok(ManagerKind::Greedy),
            _ => Err(UnknownKind),
        }
    }
}

impl TryFrom<u32> for StoreKind {
    type Error = UnknownKind;

    ghost try_from_gives = { λ number kind. kind ≡ named (store_of number) };

    fn try_from(number: u32) -> Result<StoreKind, UnknownKind> {
        match number {
            0 => Ok(StoreKind::Number),
            1 => Ok(StoreKind::Byte),
            2 => Ok(StoreKind::Window),
            _ => Err(UnknownKind),
        }
    }
}

// The kind of item that begins with a code.
impl TryFrom<u8> for ItemKind {
    type Error = UnknownKind;

    ghost try_from_gives = { λ code kind. kind ≡ named (item_kind_of code) };

    fn try_from(code: u8) -> Result<ItemKind, UnknownKind> {
        match code {
            1 => Ok(ItemKind::Start),
            2 => Ok(ItemKind::Read),
            3 => Ok(ItemKind::Write),
            4 => Ok(ItemKind::Seal),
            5 => Ok(ItemKind::Put),
            6 => Ok(ItemKind::Quit),
            7 => Ok(ItemKind::Look),
            8 => Ok(ItemKind::Remark),
            _ => Err(UnknownKind),
        }
    }
}

impl StoreKind {
    // The most words that a book in such a store has.
    fn most_words(self) -> usize
        ensures { result ≡ most_words self }
    {
        match self {
            StoreKind::Number | StoreKind::Byte => MOST_WORDS,
            StoreKind::Window => MOST_WORDS - WINDOW_START,
        }
    }

    // Whether a book in such a store can have so many words.
    pub(crate) fn fits(self, words: u32) -> bool
        ensures { result ≡ fits_store self words }
    {
        (1..=self.most_words()).contains(&(words as usize))
    }
}
