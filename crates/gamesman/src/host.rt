//! What the program asks of the system that it runs on.

use std::env::Env;
use std::fs::Files;
use std::sync::Wait;
use std::thread::Threads;
use std::time::Clock;

/// A runtime with threads, locks, a clock, files, an environment and memory.
pub trait Host: Threads + Wait + Clock + Files + Env + Sync + AllocGlobal {}

impl<R: Threads + Wait + Clock + Files + Env + Sync + AllocGlobal> Host for R {}
