// What is listed of a tape: its heading in words, a line for each item, and how it ends.
#![tactic(auto)]

ghost use Rattle.std.specs.Prelude.{◌≡◌, IfOk, Some, string_bytes};
ghost use Rattle.tape.specs.Items.{said};
ghost use Rattle.tape.specs.Tapes.{reading, tape_says};
ghost use Rattle.listing.specs.Lines.{manager_name, store_name, heading_text, item_text, listing_text, RemarksStand};

use std::alloc::Global;
use std::fmt;
use tape::heading::Heading;
use tape::item::Item;
use tape::kind::{ManagerKind, StoreKind};
use tape::reading::{Tape, read_tape};

// A part of a tape, or a whole tape, in the words of a listing.
#[derive(Clone, Copy, Debug, PartialEq, Eq)]
pub struct InWords<T>(pub T);

impl fmt::Display for InWords<ManagerKind> {
    ghost output = { λ x. Some (manager_name x.0) };

    fn fmt<W: fmt::Write>(&self, f: &mut fmt::Formatter<W>) -> fmt::Result {
        f.write_str(match self.0 {
            ManagerKind::Timid => "Timid",
            ManagerKind::TwoPhase => "two-phase",
            ManagerKind::Greedy => "Greedy",
        })
    }
}

impl fmt::Display for InWords<StoreKind> {
    ghost output = { λ x. Some (store_name x.0) };

    fn fmt<W: fmt::Write>(&self, f: &mut fmt::Formatter<W>) -> fmt::Result {
        f.write_str(match self.0 {
            StoreKind::Number => "number",
            StoreKind::Byte => "byte",
            StoreKind::Window => "window",
        })
    }
}

impl fmt::Display for InWords<Heading> {
    ghost output = { λ x. Some (heading_text x.0) };

    fn fmt<W: fmt::Write>(&self, f: &mut fmt::Formatter<W>) -> fmt::Result {
        let Heading {
            manager,
            store,
            words,
            commit,
            rank,
        } = self.0;
        write!(
            f,
            "manager {}, store {}, words {words}, commit count {commit}, next rank {rank}",
            InWords(manager),
            InWords(store)
        )
    }
}

// What an item says: the call's name and its numbers, or the remark.
impl fmt::Display for InWords<Item<'_>> {
    ghost output = { λ x. Some (item_text (said x.0)) };

    #[tactic(auto, using(crate::proofs::Growing::remark_grows))]
    fn fmt<W: fmt::Write>(&self, f: &mut fmt::Formatter<W>) -> fmt::Result {
        match self.0 {
            Item::Start { job } => write!(f, "start {job}"),
            Item::Read { job, word } => write!(f, "read {job} {word}"),
            Item::Write { job, word, value } => write!(f, "write {job} {word} {value}"),
            Item::Seal { job } => write!(f, "seal {job}"),
            Item::Put { job } => write!(f, "put {job}"),
            Item::Quit { job } => write!(f, "quit {job}"),
            Item::Look { job } => write!(f, "look {job}"),
            Item::Remark(bytes) => {
                for b in bytes {
                    f.write_char(char::from(*b))?;
                }
                Ok(())
            }
        }
    }
}

// The heading's line, if there is a heading; a line for each item, numbered from 1; and how the tape ends.
impl fmt::Display for InWords<&Tape<'_>> {
    ghost output = { λ x. Some (listing_text (reading x.0.now)) };

    #[tactic(auto, using(crate::proofs::Growing::lines_grow))]
    fn fmt<W: fmt::Write>(&self, f: &mut fmt::Formatter<W>) -> fmt::Result {
        let tape = self.0;
        if let Some(heading) = tape.heading {
            writeln!(f, "heading: {}", InWords(heading))?;
        }
        for (i, item) in tape.items.iter().enumerate() {
            writeln!(f, "{} {}", i + 1, InWords(*item))?;
        }
        match tape.fault {
            None => writeln!(f, "end {}", tape.items.len()),
            Some(fault) => {
                let number = u8::from(fault.refusal());
                let place = fault.place();
                let item = tape.faulty_item();
                writeln!(f, "fault {number} {place} {item}")
            }
        }
    }
}

// The listing of a tape; without memory for it, the error that writing text has.
pub fn list(heap: Global, tape: &Tape) -> Result<String, fmt::Error>
    ensures { IfOk result (λ text. string_bytes text ≡ listing_text (reading tape.now)) }
{
    Ok(InWords(tape).to_string(heap)?)
}

// What is listed of the tape that some bytes are, each remark as it stands there; without memory for it, an error.
#[tactic(auto, using(crate::proofs::Stands::remarks_stand))]
pub fn list_bytes(heap: Global, bytes: &[u8]) -> Result<String, fmt::Error>
    ensures text { IfOk result (λ text. string_bytes text ≡ listing_text (tape_says bytes.now)) }
    ensures remarks { RemarksStand }
{
    let tape = read_tape(heap, bytes)?;
    list(heap, &tape)
}
