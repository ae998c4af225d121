// The listing of an answer put into a lent output: an accepted file's counts and its polygons, which the tables hold, or a refusal's line. Nothing but that
// output is touched.
#![tactic(auto)]

ghost use Rattle.std.specs.Prelude.{◌+◌, ◌≤◌, length};
ghost use Rattle.validate.specs.Promises.{needs_in};
ghost use Rattle.read_answer.specs.Reads.{with_counts, answer_as};
ghost use Rattle.listing_text.specs.Prints.{Prints};
ghost use Rattle.listing_answer.specs.Listing.{need_lines, count_lines, refusal_line};
ghost use Rattle.listing_answer.specs.Lent.{ListingLent, PrintsListing, needs_size, counts_size};

use format::POLYGON_WORDS;
use listing_text::numbers::{put_count, put_labelled};
use listing_text::polygons::put_polygons;
use output::items::put_bytes;
use read_answer::ReadError;
use validate::counts::Totals;

// The lines of the five needs.
fn put_needs(out: &mut [u8], at: usize, t: Totals) -> usize
    requires { at + needs_size ≤ length out.old }
    ensures { Prints out.old at (need_lines (needs_in t)) out.new result needs_size }
{
    let to_polygons = put_count(out, at, b"points ", t.points);
    let to_vertices = put_count(out, to_polygons, b"polygons ", t.polygons);
    let to_names = put_count(out, to_vertices, b"vertices ", t.vertices);
    let to_bytes = put_count(out, to_names, b"names ", t.names);
    put_count(out, to_bytes, b"name-bytes ", t.name_bytes)
}

// The lines of an accepted file before its polygons.
fn put_counts(out: &mut [u8], at: usize, t: Totals) -> usize
    requires { at + counts_size ≤ length out.old }
    ensures { Prints out.old at (count_lines (with_counts 0 t)) out.new result counts_size }
{
    let to_needs = put_bytes(out, at, b"accepted\n");
    let to_skipped = put_needs(out, to_needs, t);
    let to_details = put_count(out, to_skipped, b"skipped ", t.skipped);
    put_count(out, to_details, b"details ", t.details)
}

// The one line of a refusal.
fn put_refusal(out: &mut [u8], at: usize, number: usize, place: usize) -> usize
    requires { at + counts_size ≤ length out.old }
    ensures { Prints out.old at (refusal_line number place) out.new result counts_size }
{
    let to_place = put_labelled(out, at, b"refused ", number);
    let to_end = put_labelled(out, to_place, b" at ", place);
    put_bytes(out, to_end, b"\n")
}

// From the start of the output. On an accepted file the tables hold its polygons at their front.
pub fn put_listing(
    out: &mut [u8],
    answer: Result<Totals, ReadError>,
    polygons: &[u32],
    vertices: &[u32],
) -> usize
    requires { ListingLent out.old (answer_as answer) polygons.now vertices.now }
    ensures { PrintsListing out.old (answer_as answer) polygons.now vertices.now out.new result }
{
    match answer {
        Err(error) => put_refusal(out, 0, error.number() as usize, error.place()),
        Ok(t) => {
            let next = put_counts(out, 0, t);
            let words = t.polygons * POLYGON_WORDS;
            put_polygons(out, next, &polygons[..words], &vertices[..t.vertices])
        }
    }
}
