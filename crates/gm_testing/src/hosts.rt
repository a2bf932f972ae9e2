//! Bounds of functions of tests and drills.
use gm_game::game::Game;
use std::fs::Files;
use std::sync::Wait;
use std::thread::Threads;
use std::time::Clock;

/// A runtime with threads and memory.
pub trait Crew: Threads + Wait + Sync + AllocGlobal {}

impl<R: Threads + Wait + Sync + AllocGlobal> Crew for R {}

/// A runtime with threads, memory, files and a clock.
pub trait Host: Crew + Files + Clock {}

impl<R: Crew + Files + Clock> Host for R {}

/// A game that threads share.
pub trait Shared: Game + Send + Sync {}

impl<G: Game + Send + Sync> Shared for G {}
