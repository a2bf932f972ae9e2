//! What the code of a game of patterns names, to be imported as a whole.
pub use crate::least::least_index_under;
pub use crate::on_patterns::OnPatterns;
pub use crate::pattern::Pattern;
pub use crate::rules::{Basics, Ends, PatternRules, Tiers, USUAL_ENDS};
pub use crate::step::Step;
pub use gm_board::image::image;
pub use gm_draw::cells::square_cells;
pub use gm_draw::pictured::{Mover, Picture, Pictured, Style};
pub use gm_game::game::Game;
pub use gm_game::limits::NAME;
pub use gm_game::position::End;
pub use gm_game::shown::Shown;
pub use gm_pieces::board::Board;
