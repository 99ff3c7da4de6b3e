// Reading a tape from its front.
ghost use Rattle.std.specs.Prelude.{◌≡◌, ◌==◌, ◌+◌, ◌-◌, ◌^◌, ◌<◌, ◌≤◌, length, take, OnErr};
ghost use Rattle.tape_number.specs.Numbers.{number_place};
ghost use Rattle.tape.specs.Faults.{shifted};
ghost use Rattle.tape.specs.Spots.{past, told, number_at};

use std::marker::Model;
use tape_number::fault::NumberFault;
use tape_number::number::decode;

// Where a reader stands on a tape.
#[derive(Drop)]
pub(crate) struct Reader<'a> {
    // The bytes that it still has.
    pub(crate) rest: &'a [u8],
    // The place where they end. It stays, where the place of the next byte would move with the bytes: so reading is faster.
    end: usize,
}

// Contracts see the spot: the place of the byte that comes next, and the bytes from there on.
impl<'a> Model for Reader<'a> {
    ghost use Rattle.std.specs.Prelude.{◌-◌, ◌≤◌, length};
    ghost use Rattle.tape.specs.Spots.{Spot};

    ghost Value = { Spot };

    ghost view = { λ r. record { place = r.end - length r.rest.now; bytes = r.rest.now } };

    ghost invariant = { λ r. length r.rest.now ≤ r.end };
}

// A fault as it is told where `before` bytes stand in front of those that were read. It is called and not inlined, since
// faults are rare, and reading without one is faster so.
#[inline(never)]
fn shift(fault: NumberFault, before: usize) -> NumberFault
    requires { before + number_place fault < 2 ^ 64 }
    ensures { result ≡ shifted before fault }
{
    let place = before + fault.place();
    match fault {
        NumberFault::Cut { .. } => NumberFault::Cut { place },
        NumberFault::Form { .. } => NumberFault::Form { place },
    }
}

impl<'a> Reader<'a> {
    // A reader at the front of a tape.
    pub(crate) fn new(tape: &'a [u8]) -> Reader<'a>
        ensures { result ≡ record { place = 0; bytes = tape.now } }
    {
        Reader {
            rest: tape,
            end: tape.len(),
        }
    }

    // The place of the byte that comes next.
    pub(crate) fn place(&self) -> usize
        ensures { result ≡ self.now.place }
    {
        self.end - self.rest.len()
    }

    // Whether no byte is left.
    pub(crate) fn is_at_end(&self) -> bool
        ensures { result ≡ (length self.now.bytes == 0) }
    {
        self.rest.is_empty()
    }

    // Takes the next `count` bytes.
    pub(crate) fn next_bytes(&mut self, count: usize) -> &'a [u8]
        requires { count ≤ length self.old.bytes }
        ensures bytes { result.now ≡ take count self.old.bytes }
        ensures after { self.new ≡ past count self.old }
    {
        let (bytes, rest) = self.rest.split_at(count);
        self.rest = rest;
        bytes
    }

    // Takes the number that stands here; where it is at fault, nothing is taken.
    #[tactic(auto, unfolding(crate::specs::Spots::number_at))]
    pub(crate) fn next_number(&mut self) -> Result<u32, NumberFault>
        ensures number { told result self.new ≡ number_at self.old }
        ensures fault { OnErr result (self.new ≡ self.old) }
    {
        let place = self.place();
        let (value, taken) = decode(self.rest).map_err(|fault| shift(fault, place))?;
        self.next_bytes(taken);
        Ok(value)
    }
}
