// What can be wrong with a tape. Each fault keeps the place, counted in bytes from 0, at which it is told.
ghost use Rattle.std.specs.Prelude.{◌≡◌};
ghost use Rattle.tape.specs.declared.fault.ItemFault.TheVariants.{Number as InItem};
ghost use Rattle.tape.specs.declared.fault.HeadingFault.TheVariants.{Number as InHeading};
ghost use Rattle.tape.specs.declared.fault.ProgramFault.TheVariants.{Item, Heading};

use tape_number::fault::NumberFault;

// A fault in one item.
#[derive(Clone, Copy, PartialEq, Eq, Debug)]
pub enum ItemFault {
    Number(NumberFault),
    // The tape ends where the item should go on; the place is that end.
    Cut { place: usize },
    // An unknown code; the place is the code's.
    Code { place: usize },
    // A remark that is empty or too long; the place is its length's.
    Length { place: usize },
    // A byte that no remark may hold; the place is that byte's.
    Byte { place: usize },
}

// A fault in the heading.
#[derive(Clone, Copy, PartialEq, Eq, Debug)]
pub enum HeadingFault {
    Number(NumberFault),
    // An unknown manager or store; the place is its number's.
    Kind { place: usize },
    // A number of words that the store cannot have; the place is that number's.
    Words { place: usize },
}

// What ends the reading of a tape before the tape's end.
#[derive(Clone, Copy, PartialEq, Eq, Debug)]
pub enum ProgramFault {
    // More bytes than a tape may have.
    TooLong,
    Heading(HeadingFault),
    Item(ItemFault),
}

// These four are written out and not derived: contracts name what `?` makes of a fault.

impl From<NumberFault> for ItemFault {
    ghost from_gives = { λ x y. y ≡ InItem x };

    fn from(value: NumberFault) -> ItemFault {
        ItemFault::Number(value)
    }
}

impl From<NumberFault> for HeadingFault {
    ghost from_gives = { λ x y. y ≡ InHeading x };

    fn from(value: NumberFault) -> HeadingFault {
        HeadingFault::Number(value)
    }
}

impl From<ItemFault> for ProgramFault {
    ghost from_gives = { λ x y. y ≡ Item x };

    fn from(value: ItemFault) -> ProgramFault {
        ProgramFault::Item(value)
    }
}

impl From<HeadingFault> for ProgramFault {
    ghost from_gives = { λ x y. y ≡ Heading x };

    fn from(value: HeadingFault) -> ProgramFault {
        ProgramFault::Heading(value)
    }
}
