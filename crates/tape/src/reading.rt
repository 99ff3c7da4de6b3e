// Reading a whole tape.
ghost use Rattle.std.specs.Prelude.{◌≡◌, ◌+◌, ◌≤◌, [], ◌++◌, map, length, IfOk, None, vec_len, vec_capacity, nat_lt};
ghost use Rattle.std.specs.Result.{result_err};
ghost use Rattle.tape.specs.Faults.{most_bytes};
ghost use Rattle.tape.specs.Items.{said};
ghost use Rattle.tape.specs.Laws.{OneTape};
ghost use Rattle.tape.specs.Tapes.{items_at, reading, stopped, tape_says, faulty_item};

use crate::fault::{ItemFault, ProgramFault};
use crate::heading::Heading;
use crate::item::Item;
use crate::reader::Reader;
use crate::refusal::MOST_BYTES;
use std::alloc::{AllocError, Global};

// A tape, as far as it could be read.
#[derive(Drop)]
pub struct Tape<'a> {
    // None where the tape is too long, or the fault lies in the heading.
    pub heading: Option<Heading>,
    pub items: Vec<Item<'a>>,
    // What stopped the reading before the tape's end.
    pub fault: Option<ProgramFault>,
}

// Whether some bytes are more than a tape may have.
fn is_too_long(bytes: &[u8]) -> bool
    ensures { result ≡ nat_lt most_bytes (length bytes.now) }
{
    bytes.len() > MOST_BYTES
}

// Adds the items that a reader still has to `items`, which has room for them, up to the tape's end or the first fault.
#[tactic(auto, using(crate::proofs::Turns::turns))]
fn read_items<'a>(mut reader: Reader<'a>, items: &mut Vec<Item<'a>>) -> Result<(), ItemFault>
    requires { vec_len items.old + length reader.bytes ≤ vec_capacity items.old }
    ensures items { map said items.new.items ≡ map said items.old.items ++ (items_at reader.entry).items }
    ensures fault { result_err result ≡ (items_at reader.entry).fault }
{
    while !reader.is_at_end() {
        items.push_reserved(reader.next_item()?);
    }
    Ok(())
}

impl<'a> Tape<'a> {
    // Reads the heading and the items into a blank tape that has room for an item a byte.
    #[tactic(auto, using(crate::proofs::Fills::fills))]
    fn fill(&mut self, bytes: &'a [u8]) -> Result<(), ProgramFault>
        requires headless { self.old.heading ≡ None }
        requires blank { (self.old.items.items ≡ []) × (vec_len self.old.items ≡ 0) }
        requires room { length bytes.now ≤ most_bytes → length bytes.now ≤ vec_capacity self.old.items }
        ensures says { stopped self.new (result_err result) ≡ tape_says bytes.now }
        ensures kept { self.new.fault ≡ self.old.fault }
    {
        if is_too_long(bytes) {
            return Err(ProgramFault::TooLong);
        }
        let mut reader = Reader::new(bytes);
        self.heading = Some(reader.next_heading()?);
        read_items(reader, &mut self.items)?;
        Ok(())
    }

    // The number of the item at fault. Where it is the heading, or the whole tape, that is 0, as a listing has it.
    pub fn faulty_item(&self) -> usize
        ensures { result ≡ faulty_item (reading self.now) }
    {
        match self.heading {
            Some(_) => self.items.len() + 1,
            None => 0,
        }
    }
}

// What a tape says, or how far it can be read; the one error is want of memory.
#[tactic(auto, using(crate::proofs::Wholes::one_tape))]
pub fn read_tape<'a>(heap: Global, bytes: &'a [u8]) -> Result<Tape<'a>, AllocError>
    ensures says { IfOk result (λ tape. reading tape ≡ tape_says bytes.now) }
    ensures law { OneTape }
{
    let most = bytes.len().min(MOST_BYTES);
    let items = Vec::with_capacity(heap, most)?;
    let mut tape = Tape {
        heading: None,
        items,
        fault: None,
    };
    tape.fault = tape.fill(bytes).err();
    Ok(tape)
}
