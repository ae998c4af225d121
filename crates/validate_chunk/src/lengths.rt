// What a chunk is judged by besides its bytes: how long the lists before it are.

// How long the latest point list, the latest POLS and the name list are, where there is one.
#[derive(Clone, Copy, Debug, Default, PartialEq, Eq)]
pub struct Lengths {
    pub points: Option<usize>,
    pub polygons: Option<usize>,
    pub names: Option<usize>,
}
