// The heading of a tape: five numbers that say on which bench the items are played.
ghost use Rattle.std.specs.Prelude.{◌≡◌, ℕ, Option};
ghost use Rattle.tape.specs.Kinds.{Converts};
ghost use Rattle.tape.specs.Spots.{told};
ghost use Rattle.tape.specs.Headings.{kind_at, words_at, heading_at};

use crate::fault::HeadingFault;
use crate::kind::{ManagerKind, StoreKind, UnknownKind};
use crate::reader::Reader;

#[derive(Clone, Copy, PartialEq, Eq, Debug)]
pub struct Heading {
    pub manager: ManagerKind,
    pub store: StoreKind,
    // How many words the book has.
    pub words: u32,
    // The commit count at first.
    pub commit: u32,
    // The next rank number at first.
    pub rank: u32,
}

impl Reader<'_> {
    // Takes the number that stands here, for the kind that it names.
    fn next_kind<K: TryFrom<u32, Error = UnknownKind>>(&mut self) -> Result<K, HeadingFault>
        ensures { (kind_of : ℕ → Option K) → Converts K.try_from_gives kind_of → told result self.new ≡ kind_at kind_of self.old }
    {
        let place = self.place();
        let number = self.next_number()?;
        K::try_from(number).map_err(|_| HeadingFault::Kind { place })
    }

    // Takes the number of words that stands here, for a book in such a store.
    fn next_words(&mut self, store: StoreKind) -> Result<u32, HeadingFault>
        ensures { told result self.new ≡ words_at store self.old }
    {
        let place = self.place();
        let words = self.next_number()?;
        if store.fits(words) {
            Ok(words)
        } else {
            Err(HeadingFault::Words { place })
        }
    }

    // Takes the heading that stands here.
    pub(crate) fn next_heading(&mut self) -> Result<Heading, HeadingFault>
        ensures { told result self.new ≡ heading_at self.old }
    {
        let manager = self.next_kind()?;
        let store = self.next_kind()?;
        Ok(Heading {
            manager,
            store,
            words: self.next_words(store)?,
            commit: self.next_number()?,
            rank: self.next_number()?,
        })
    }
}
