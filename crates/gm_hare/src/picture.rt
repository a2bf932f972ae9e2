//! What Hare and Hounds looks like.
ghost use Rattle.std.specs.Prelude.{◌≡◌};
ghost use Rattle.gm_hare.specs.HarePicture.{hare_picture};
ghost use Rattle.gm_hare.specs.laws.HarePictured.{hare_pictured};

use crate::hare::{Hare, HareRules};
use gm_draw::on_boards::PicturedMoves;
use gm_draw::pictured::{Mover, Picture, Pictured, Style};

impl PicturedMoves for HareRules {
    ghost picture = { hare_picture };

    ghost pictured = { hare_pictured };

    #[tactic(auto, using(crate::specs::laws::HarePictured::hare_named), unfolding(crate::specs::HarePicture::hare_picture, crate::specs::HarePicture::hare_points, crate::specs::Texts::point_name))]
    fn picture() -> Picture {
        Picture {
            title: b"Hare and Hounds",
            style: Style::Letters,
            board: b"      B---E---H\n    / | \\ | / | \\\n  A---C---F---I---K\n    \\ | / | \\ | /\n      D---G---J",
            rows: &[],
            points: &[
                b"L", b"T1", b"M1", b"B1", b"T2", b"M2", b"B2", b"T3", b"M3", b"B3", b"R",
            ],
            mover: Mover::ByLast {
                byte: b'd',
                name: b"hounds",
                other: b"hare",
            },
            naming: b"Points are named so:\n     T1--T2--T3\n   / | \\ | / | \\\n  L--M1--M2--M3--R\n   \\ | / | \\ | /\n     B1--B2--B3\nA position is L T1 M1 B1 T2 M2 B2 T3 M3 B3 R:\nd for a hound, h for the hare, . where it is\nempty; then a space, and d or h for who moves.\nA move is from one point to another.\n",
        }
    }
}

/// Has no effect; its contract states what Hare and Hounds looks like.
pub fn hare_is_drawn()
    ensures { ⟦<Hare as Pictured>⟧.picture ≡ hare_picture }
{}
