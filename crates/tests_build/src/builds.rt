//! Builds of whole games over stores, also over stores that fail, and their progress.
mod progresses;
mod stores;
