//! What a diagram shows besides the board and the side to move.
ghost use Rattle.std.specs.Prelude.{◌≡◌};
ghost use Rattle.gm_draw.specs.Looks.{style_by};

use crate::pictured::Style;

/// What a diagram shows besides the board and the side to move.
#[derive(Clone, Copy, Debug, PartialEq, Eq)]
pub struct Look {
    /// Whether the value follows the side to move.
    pub valued: bool,
    /// Whether chess men are figures in place of letters.
    pub figures: bool,
}

impl Look {
    /// Returns the look of the men in a diagram of a game with this style.
    pub(crate) fn style(self, style: Style) -> Style
        ensures { result ≡ style_by self.figures style }
    {
        match style {
            Style::Chess if self.figures => Style::Figures,
            _ => style,
        }
    }
}
