ghost use Rattle.std.specs.Prelude.{◌≡◌};
ghost use Rattle.tape_number.specs.Numbers.{number_place};

// A fault in one number. Its place is counted in bytes from 0.
#[derive(Clone, Copy, PartialEq, Eq, Debug)]
pub enum NumberFault {
    // The bytes end before the number does; the place is where they end.
    Cut { place: usize },
    // More than 32 bits, or a longer form than need be; the place is where the number begins.
    Form { place: usize },
}

impl NumberFault {
    // The place that the fault names.
    pub fn place(self) -> usize
        ensures { result ≡ number_place self }
    {
        match self {
            NumberFault::Cut { place } | NumberFault::Form { place } => place,
        }
    }
}
