// The surface records of a file into their table, one for each listed name.
ghost use Rattle.format.specs.Promises.{FilePut};
ghost use Rattle.load_surfaces.specs.Promises.{file_records, RecordsRoom};

use format::Kind;
use load_records::table::put_missing;
use load_surface_chunks::chunks::put_surfaces;

// Each name first has the record of a name with no SURF. The SURFs are then stored in file order, so the last one of a name stands.
// The lengths and the joined bytes are two of the caller's tables. A pair of them would be taken apart in each contract, so they stay side by side.
pub fn fill_records(
    file: &[u8],
    kind: Kind,
    count: usize,
    lengths: &[u32],
    bytes: &[u8],
    records: &mut [u32],
)
    requires { RecordsRoom kind file.now count lengths.now bytes.now records.old }
    ensures { FilePut (file_records kind) kind file.now records.old records.new }
{
    put_missing(records, count);
    put_surfaces(file, kind, &lengths[..count], bytes, None, records);
}
