// The six tables that a caller lends: always together, and always in this order.

// Points are three words each, polygons four, vertices and names one, records ten; the bytes of the names are joined. Whether they are a mesh is asked of them.
#[derive(Clone, Copy, Debug, PartialEq, Eq)]
pub struct Tables<'a> {
    pub points: &'a [u32],
    pub polygons: &'a [u32],
    pub vertices: &'a [u32],
    pub names: &'a [u32],
    pub name_bytes: &'a [u8],
    pub records: &'a [u32],
}
