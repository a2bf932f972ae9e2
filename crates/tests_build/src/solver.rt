//! Tables, levels, shards, solved tiers, boards and passes by hand, on the toys.
mod boards;
mod levels;
mod parts;
mod piece_boards;
mod records;
mod shards;
mod workers;
