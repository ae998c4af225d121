// What a read answers: the counts of a file that has a mesh, or why it was not read: its first fault, or that the lent tables have no room for it. Nothing is
// written.
#![tactic(auto)]

use validate::counts::Totals;
use wire::Refusal;

pub mod answers;
pub mod room;

// Why a file was not read: its first fault and the fault's place, or the counts of a mesh for which a table has no room.
#[derive(Clone, Copy, Debug, PartialEq, Eq)]
pub enum ReadError {
    Refused(Refusal),
    NoRoom(Totals),
}

impl From<Refusal> for ReadError {
    ghost use Rattle.std.specs.Prelude.{◌≡◌};
    ghost use Rattle.read_answer.specs.declared.ReadError.TheVariants.{Refused};

    ghost from_gives = { λ f e. e ≡ Refused f };

    fn from(f: Refusal) -> ReadError {
        ReadError::Refused(f)
    }
}
