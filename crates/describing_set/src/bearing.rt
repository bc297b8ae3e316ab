//! How a describing set lies to a filter.

/// How a describing set lies to a filter.
#[derive(Clone, Copy, Debug, Drop, PartialEq)]
pub enum Bearing {
    /// The filter matches each coordinate that the set covers.
    Inside,
    /// The filter may match some of the coordinates that the set covers.
    Overlaps,
    /// The filter matches no coordinate that the set covers.
    Apart,
}
