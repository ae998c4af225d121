// The numbers and places of refusals.
ghost use Rattle.std.specs.Prelude.{◌≡◌, Err};
ghost use Rattle.read_answer.specs.Reads.{answer_as};

use crate::ReadError;

impl ReadError {
    // The number that the documents give it.
    pub fn number(self) -> u32
        ensures { result ≡ (answer_as (Err self)).number }
    {
        match self {
            ReadError::Refused(f) => u32::from(f.why),
            ReadError::NoRoom(_) => 16,
        }
    }

    // The place of the fault, which is 0 where there is no room.
    pub fn place(self) -> usize
        ensures { result ≡ (answer_as (Err self)).place }
    {
        match self {
            ReadError::Refused(f) => f.at,
            ReadError::NoRoom(_) => 0,
        }
    }
}
