// Points of grids as counts of tags: whether they are ones of a grid, and in order.

mod fitting;

pub use fitting::points_fit;
