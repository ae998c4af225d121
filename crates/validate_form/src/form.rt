// The first twelve bytes of a file: FORM, its length and the kind of file. A fault of these bytes is at the file's start, so that no place is told with it.
ghost use Rattle.std.specs.Prelude.{◌≡◌};
ghost use Rattle.format.specs.Promises.{form_as};
ghost use Rattle.format.specs.Rules.{form};

use format::tags::FORM;
use format::{Fault, Kind};
use wire::cursor::word;

// The type is judged before the length, as the numbers of their refusals say.
pub fn header(file: &[u8]) -> Result<Kind, Fault>
    ensures { form_as result ≡ form file.now }
{
    let n = file.len();
    if 16777216 < n {
        return Err(Fault::FileTooLong);
    }
    if n < 12 {
        return Err(Fault::NotForm);
    }
    if word(file, 0) != FORM {
        return Err(Fault::NotForm);
    }
    let kind = Kind::try_from(word(file, 8))?;
    if word(file, 4) as usize + 8 == n {
        Ok(kind)
    } else {
        Err(Fault::FormLength)
    }
}
