//! The tracker: worked runs, its table, worlds, and allocations that fail. Longer runs are in `vectors/`, which the
//! program and the library run.
mod memory;
mod restoring;
mod runs;
mod told;
mod watching;
mod worlds;
