//! What Countdown from 10, Takeaway and Wheel look like: rows of numbers.
ghost use Rattle.std.specs.Prelude.{◌≡◌};
ghost use Rattle.gm_toys.specs.Pictures.{countdown_picture, takeaway_picture, wheel_picture};
ghost use Rattle.gm_toys.specs.laws.Pictured.{countdown_pictured, takeaway_pictured, wheel_pictured};

use crate::countdown::Countdown;
use crate::takeaway::Takeaway;
use crate::wheel::Wheel;
use gm_draw::pictured::{Mover, Picture, Pictured, Style};

impl Pictured for Countdown<10> {
    ghost picture = { countdown_picture };

    ghost pictured = { countdown_pictured };

    fn picture() -> Picture {
        Picture {
            title: b"Countdown",
            style: Style::Row,
            board: b"0 1 2 3 4 5 6 7 8 9 10",
            rows: &[
                b"[0] 1 2 3 4 5 6 7 8 9 10",
                b"0 [1] 2 3 4 5 6 7 8 9 10     take 1",
                b"0 1 [2] 3 4 5 6 7 8 9 10     take 1 or 2",
                b"0 1 2 [3] 4 5 6 7 8 9 10     take 1 or 2",
                b"0 1 2 3 [4] 5 6 7 8 9 10     take 1 or 2",
                b"0 1 2 3 4 [5] 6 7 8 9 10     take 1 or 2",
                b"0 1 2 3 4 5 [6] 7 8 9 10     take 1 or 2",
                b"0 1 2 3 4 5 6 [7] 8 9 10     take 1 or 2",
                b"0 1 2 3 4 5 6 7 [8] 9 10     take 1 or 2",
                b"0 1 2 3 4 5 6 7 8 [9] 10     take 1 or 2",
                b"0 1 2 3 4 5 6 7 8 9 [10]     take 1 or 2",
            ],
            points: &[
                b"0", b"1", b"2", b"3", b"4", b"5", b"6", b"7", b"8", b"9", b"10",
            ],
            mover: Mover::Same(b"player"),
            naming: b"A position is a number. A move is how much is\ntaken from it.\n",
        }
    }
}

impl Pictured for Takeaway {
    ghost picture = { takeaway_picture };

    ghost pictured = { takeaway_pictured };

    fn picture() -> Picture {
        Picture {
            title: b"Takeaway",
            style: Style::Row,
            board: b"0 1 2 3 4 5 6 7 8 9 10 11 12",
            rows: &[
                b"[0] 1 2 3 4 5 6 7 8 9 10 11 12",
                b"0 [1] 2 3 4 5 6 7 8 9 10 11 12     take 1",
                b"0 1 [2] 3 4 5 6 7 8 9 10 11 12     take 1 or 2",
                b"0 1 2 [3] 4 5 6 7 8 9 10 11 12     take 1 to 3",
                b"0 1 2 3 [4] 5 6 7 8 9 10 11 12     take 1 to 3",
                b"0 1 2 3 4 [5] 6 7 8 9 10 11 12     take 1 to 3",
                b"0 1 2 3 4 5 [6] 7 8 9 10 11 12     take 1 to 3",
                b"0 1 2 3 4 5 6 [7] 8 9 10 11 12     take 1 to 3",
                b"0 1 2 3 4 5 6 7 [8] 9 10 11 12     take 1 to 3",
                b"0 1 2 3 4 5 6 7 8 [9] 10 11 12     take 1 to 3",
                b"0 1 2 3 4 5 6 7 8 9 [10] 11 12     take 1 to 3",
                b"0 1 2 3 4 5 6 7 8 9 10 [11] 12     take 1 to 3",
                b"0 1 2 3 4 5 6 7 8 9 10 11 [12]     take 1 to 3",
            ],
            points: &[
                b"0", b"1", b"2", b"3", b"4", b"5", b"6", b"7", b"8", b"9", b"10", b"11", b"12",
            ],
            mover: Mover::Same(b"player"),
            naming: b"A position is the number of counters that are\nleft. A move is how many are taken.\n",
        }
    }
}

impl Pictured for Wheel {
    ghost picture = { wheel_picture };

    ghost pictured = { wheel_pictured };

    fn picture() -> Picture {
        Picture {
            title: b"Wheel",
            style: Style::Row,
            board: b"0 1 2 3 4 5 6 7 8 9",
            rows: &[
                b"[0] 1 2 3 4 5 6 7 8 9",
                b"0 [1] 2 3 4 5 6 7 8 9        1 -> 0 2",
                b"0 1 [2] 3 4 5 6 7 8 9        2 -> 1 3",
                b"0 1 2 [3] 4 5 6 7 8 9        3 -> 4",
                b"0 1 2 3 [4] 5 6 7 8 9        4 -> 3",
                b"0 1 2 3 4 [5] 6 7 8 9",
                b"0 1 2 3 4 5 [6] 7 8 9        6 -> 0 5",
                b"0 1 2 3 4 5 6 [7] 8 9        7 -> 6",
                b"0 1 2 3 4 5 6 7 [8] 9        8 -> 3 6",
                b"0 1 2 3 4 5 6 7 8 [9]        9 -> 1 7",
            ],
            points: &[b"0", b"1", b"2", b"3", b"4", b"5", b"6", b"7", b"8", b"9"],
            mover: Mover::Same(b"player"),
            naming: b"A position is a number. A move is the number that\nit leads to.\n",
        }
    }
}

/// Has no effect; its contract states what Countdown, Takeaway and Wheel look like.
pub fn rows_are_drawn()
    ensures countdown { ⟦<Countdown<10> as Pictured>⟧.picture ≡ countdown_picture }
    ensures takeaway { ⟦<Takeaway as Pictured>⟧.picture ≡ takeaway_picture }
    ensures wheel { ⟦<Wheel as Pictured>⟧.picture ≡ wheel_picture }
{}
