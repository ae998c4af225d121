// The first pass over a file: its header and then its chunks are validated in file order, and what the tables need is counted. The answer is the first refusal
// of all, or the counts; nothing is written.
#![tactic(auto)]

ghost use Rattle.validate.specs.Promises.{FileJudged};

use crate::chunks::validate_chunks;
use crate::counts::Totals;
use format::Kind;
use validate_form::form::header;
use wire::Refusal;

pub mod chunks;
pub mod counts;

// The header comes first: it says by which kind of file the chunks are judged. The answer is that kind and what the tables need, or the first refusal with its
// place in the file.
pub fn validate(file: &[u8]) -> Result<(Kind, Totals), Refusal>
    ensures { FileJudged file.now result }
{
    let kind = match header(file) {
        Ok(kind) => kind,
        Err(why) => {
            return Err(Refusal { why, at: 0 });
        }
    };
    let totals = validate_chunks(file, kind)?;
    Ok((kind, totals))
}
