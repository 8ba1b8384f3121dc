// What stands on one carrier of a symbol.

// A point of the constellation: two 32-bit floats in grid units, so that neighbouring points are 2 apart.
#[derive(Clone, Copy, Debug, PartialEq)]
pub struct Point {
    pub i: f32,
    pub q: f32,
}

// A carrier is heard, as a point, or struck out by the front end: then nothing was heard there, which is not the same as zero.
// That it is an enum of its own, and no `Option`, is a fixed form of the project.
#[derive(Clone, Copy, Debug, PartialEq)]
pub enum Carrier {
    Heard(Point),
    Struck,
}
