//! Limits that hold for each program.

/// As many objects and predicates as a program has at most.
pub const MOST_NAMES: usize = 4_104;
