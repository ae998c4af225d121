// Second pass over what polygons start with: vertices are put into the table of vertices, and the words of a polygon into the table of polygons. What is
// read was validated before. These words stand in a table from an index on, and the rest of it is unchanged.
#![tactic(auto)]

use wire::cursor::Cursor;

pub mod lwob_entry;
pub mod polygon_words;
pub mod vertices;

// The lists that the numbers in a polygon are read by: how many points come before the latest list of points, how many that list has, and how many names
// there are.
#[derive(Clone, Copy, Debug, Default, PartialEq, Eq)]
pub struct Lists {
    pub base: u32,
    pub points: usize,
    pub names: usize,
}

// The indices where the words of the polygons, and their vertices, end in the tables. The next polygon is put there.
#[derive(Clone, Copy, Debug, Default, PartialEq, Eq)]
pub struct Ends {
    pub polygons: usize,
    pub vertices: usize,
}

// A polygon that was put: the cursor after it, and how many vertices it has.
#[derive(Clone, Copy, Debug, PartialEq, Eq)]
pub struct PolygonStored {
    pub next: Cursor,
    pub vertices: usize,
}
