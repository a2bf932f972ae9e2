//! Tier files, of today and of version 1, and the stores that keep them.
mod stores;
mod streams;
mod versions;
