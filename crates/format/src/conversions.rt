// What the documents make of a word of a file, and of a fault.
use crate::tags::{LWO2, LWOB};
use crate::{Fault, Kind};

// The kind of file, by the type behind the FORM's length.
impl TryFrom<u32> for Kind {
    type Error = Fault;

    ghost use Rattle.std.specs.Prelude.{◌≡◌};
    ghost use Rattle.format.specs.Promises.{form_as};
    ghost use Rattle.format.specs.Rules.{kind_of};

    ghost try_from_gives = { λ t kind. form_as kind ≡ kind_of t };

    #[tactic(auto, unfolding(crate::specs::Rules::kind_of, crate::specs::Bytes::number))]
    fn try_from(t: u32) -> Result<Kind, Fault> {
        match t {
            LWOB => Ok(Kind::LWOB),
            LWO2 => Ok(Kind::LWO2),
            _ => Err(Fault::NotForm),
        }
    }
}

// The number that the documents give a fault.
impl From<Fault> for u32 {
    ghost use Rattle.std.specs.Prelude.{◌≡◌};
    ghost use Rattle.format.specs.Refusals.{number_of};

    ghost from_gives = { λ why n. n ≡ number_of why };

    #[tactic(auto, unfolding(crate::specs::Refusals::number_of))]
    fn from(why: Fault) -> u32 {
        match why {
            Fault::FileTooLong => 1,
            Fault::NotForm => 2,
            Fault::FormLength => 3,
            Fault::BadHeader => 4,
            Fault::OutOfOrder => 5,
            Fault::WrongLength => 6,
            Fault::ItemCut => 19,
            Fault::StringOpen => 20,
            Fault::LongIndex => 22,
            Fault::NotFinite => 7,
            Fault::VertexCount => 8,
            Fault::VertexNumber => 9,
            Fault::SurfaceNumber => 10,
            Fault::PolygonNumber => 11,
            Fault::PolygonType => 12,
            Fault::BadName => 13,
            Fault::DetailSurface => 14,
            Fault::SurfaceValue => 15,
        }
    }
}
