// Tapes: how the archive's jobs are handed to it as bytes.
#![tactic(auto)]

ghost use Rattle.tape.specs.Figures.{NumberFigures};

pub mod fault;
pub mod heading;
pub mod item;
pub mod kind;
mod reader;
pub mod reading;
pub mod refusal;

// Shows the figures by which the definitions of tape numbers can be judged.
#[tactic(auto, unfolding(tape_number::specs::Numbers::byte_form, tape_number::specs::Numbers::read_number))]
pub fn figures()
    ensures { NumberFigures }
{}
