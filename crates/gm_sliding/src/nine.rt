//! Nine Holes and Picaria, which are games of nine points.
pub use gm_morris::games::{NineHoles, Picaria, nine_holes_is, picaria_is};
