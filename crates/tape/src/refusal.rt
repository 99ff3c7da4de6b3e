// Under which number, and at which place, a fault is told.
ghost use Rattle.std.specs.Prelude.{◌≡◌};
ghost use Rattle.tape.specs.Faults.{number_refusal, item_refusal, item_place, heading_refusal, heading_place, program_refusal, program_place};

use crate::fault::{HeadingFault, ItemFault, ProgramFault};
use book::Refusal;
use tape_number::fault::NumberFault;

// The most bytes that a tape may have.
pub const MOST_BYTES: usize = 16_384;

// The refusal that a number's fault meets.
fn number_refusal(fault: NumberFault) -> Refusal
    ensures { result ≡ number_refusal fault }
{
    match fault {
        NumberFault::Cut { .. } => Refusal::CutShort,
        NumberFault::Form { .. } => Refusal::BadNumber,
    }
}

impl ItemFault {
    // The refusal that the fault meets.
    fn refusal(self) -> Refusal
        ensures { result ≡ item_refusal self }
    {
        match self {
            ItemFault::Number(fault) => number_refusal(fault),
            ItemFault::Cut { .. } => Refusal::CutShort,
            ItemFault::Code { .. } => Refusal::Unknown,
            ItemFault::Length { .. } | ItemFault::Byte { .. } => Refusal::BadRemark,
        }
    }

    // The place that the fault names.
    fn place(self) -> usize
        ensures { result ≡ item_place self }
    {
        match self {
            ItemFault::Number(fault) => fault.place(),
            ItemFault::Cut { place } | ItemFault::Code { place } => place,
            ItemFault::Length { place } | ItemFault::Byte { place } => place,
        }
    }
}

impl HeadingFault {
    // The refusal that the fault meets.
    fn refusal(self) -> Refusal
        ensures { result ≡ heading_refusal self }
    {
        match self {
            HeadingFault::Number(fault) => number_refusal(fault),
            HeadingFault::Kind { .. } => Refusal::Unknown,
            HeadingFault::Words { .. } => Refusal::BadLength,
        }
    }

    // The place that the fault names.
    fn place(self) -> usize
        ensures { result ≡ heading_place self }
    {
        match self {
            HeadingFault::Number(fault) => fault.place(),
            HeadingFault::Kind { place } | HeadingFault::Words { place } => place,
        }
    }
}

impl ProgramFault {
    // The refusal that the fault meets.
    pub fn refusal(self) -> Refusal
        ensures { result ≡ program_refusal self }
    {
        match self {
            ProgramFault::TooLong => Refusal::TooLong,
            ProgramFault::Heading(fault) => fault.refusal(),
            ProgramFault::Item(fault) => fault.refusal(),
        }
    }

    // The place that the fault names.
    pub fn place(self) -> usize
        ensures { result ≡ program_place self }
    {
        match self {
            ProgramFault::TooLong => MOST_BYTES,
            ProgramFault::Heading(fault) => fault.place(),
            ProgramFault::Item(fault) => fault.place(),
        }
    }
}
