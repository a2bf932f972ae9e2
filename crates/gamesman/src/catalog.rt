//! What the list of games in JSON has of each game besides its texts. `tools/docs --write` makes this file of the crates' `games.json`.

use crate::listing::Row;
use gm_command::names::GameName;
use gm_game::position::Value;

// Writes the rows of these games.
macro_rules! rows {
    ($({ $name:literal, $game:ident, $family:literal, $value:ident, $remoteness:expr, $legal:literal })*) => {
        [$(($name, GameName::$game, $family, Value::$value, $remoteness, $legal)),*]
    };
}

/// The games that `list` prints.
pub const ROWS: [Row; 18] = rows! {
    { "countdown", Countdown, "Numbers", Win, Some(7), 11 }
    { "wheel", Wheel, "Numbers", Win, Some(3), 10 }
    { "tactix-1", TacTix1, "Taking counters", Win, Some(1), 2 }
    { "tactix-2", TacTix2, "Taking counters", Lose, Some(4), 16 }
    { "tactix-3", TacTix3, "Taking counters", Win, Some(7), 512 }
    { "tactix-4", TacTix4, "Taking counters", Lose, Some(16), 65_536 }
    { "tactix-5", TacTix5, "Taking counters", Win, Some(19), 33_554_432 }
    { "tactix-1-misere", TacTix1Misere, "Taking counters", Lose, Some(1), 2 }
    { "tactix-2-misere", TacTix2Misere, "Taking counters", Lose, Some(3), 16 }
    { "tactix-3-misere", TacTix3Misere, "Taking counters", Win, Some(6), 512 }
    { "tactix-4-misere", TacTix4Misere, "Taking counters", Lose, Some(15), 65_536 }
    { "tactix-5-misere", TacTix5Misere, "Taking counters", Win, Some(18), 33_554_432 }
    { "tictactoe", TicTacToe, "Rows of three and four", Tie, Some(9), 5_478 }
    { "threemens", ThreeMens, "Rows of three and four", Draw, None, 3_910 }
    { "achi", Achi, "Rows of three and four", Win, Some(11), 5_400 }
    { "mutorere", MuTorere, "Chases and blockades", Draw, None, 630 }
    { "dao", Dao, "Rows of three and four", Draw, None, 891_990 }
    { "hare", Hare, "Chases and blockades", Win, Some(23), 2_640 }
};

/// The games that only `list --all` prints.
pub const LATER_ROWS: [Row; 36] = rows! {
    { "ponghauki", PongHauKi, "Chases and blockades", Draw, None, 30 }
    { "shisima", Shisima, "Rows of three and four", Draw, None, 1_600 }
    { "takeaway", Takeaway, "Numbers", Lose, Some(6), 13 }
    { "tapatan", Tapatan, "Rows of three and four", Draw, None, 1_520 }
    { "dodgem", Dodgem, "Chases and blockades", Win, Some(19), 1_377 }
    { "krk", Krk, "Endings of chess", Win, Some(23), 402_724 }
    { "kqk", Kqk, "Endings of chess", Win, Some(13), 372_064 }
    { "foxhounds", FoxHounds, "Chases and blockades", Lose, Some(44), 2_013_760 }
    { "tictactoe-misere", TicTacToeMisere, "Rows of three and four", Tie, Some(9), 5_478 }
    { "tictactoe-4", TicTacToe4, "Rows of three and four", Tie, Some(16), 9_722_020 }
    { "notakto", Notakto, "Rows of three and four", Win, Some(6), 512 }
    { "hex-3", Hex3, "Filling a board", Win, Some(5), 5_514 }
    { "hex-4", Hex4, "Filling a board", Win, Some(9), 9_386_892 }
    { "sim", Sim, "Rows of three and four", Lose, Some(15), 2_254_102 }
    { "hexapawn", Hexapawn, "Chases and blockades", Lose, Some(6), 2_487 }
    { "hexapawn-4", Hexapawn4, "Chases and blockades", Win, Some(11), 756_384 }
    { "nineholes", NineHoles, "Rows of three and four", Draw, None, 3_910 }
    { "picaria", Picaria, "Rows of three and four", Draw, None, 3_870 }
    { "clobber", Clobber, "Chases and blockades", Win, Some(11), 10_165_778 }
    { "toads", Toads, "Chases and blockades", Win, Some(21), 11_550 }
    { "kono", Kono, "Chases and blockades", Draw, None, 38_301_786 }
    { "domineering-4", Domineering4, "Filling a board", Win, Some(7), 32_768 }
    { "domineering-5", Domineering5, "Filling a board", Lose, Some(12), 16_777_216 }
    { "cram-4", Cram4, "Filling a board", Lose, Some(8), 32_768 }
    { "cram-5", Cram5, "Filling a board", Lose, Some(12), 16_777_216 }
    { "kayles", Kayles, "Taking counters", Win, Some(11), 4_096 }
    { "kpk", Kpk, "Endings of chess", Win, Some(43), 1_158_448 }
    { "connect4-4x4", Connect4x4, "Rows of three and four", Tie, Some(16), 176_500 }
    { "connect4-5x4", Connect5x4, "Rows of three and four", Tie, Some(20), 4_352_290 }
    { "connect4-4x5", Connect4x5, "Rows of three and four", Tie, Some(20), 2_179_983 }
    { "connect4-4x6", Connect4x6, "Rows of three and four", Tie, Some(24), 25_128_012 }
    { "connect4-5x5", Connect5x5, "Rows of three and four", Tie, Some(25), 97_123_542 }
    { "connect4-6x4", Connect6x4, "Rows of three and four", Lose, Some(24), 108_180_486 }
    { "nim", Nim, "Taking counters", Lose, Some(16), 384 }
    { "nim-misere", NimMisere, "Taking counters", Lose, Some(15), 384 }
    { "chomp", Chomp, "Taking counters", Win, Some(18), 330 }
};
