// The two files of a task.

/// One of the two files.
#[derive(Clone, Copy, PartialEq, Eq)]
pub enum Side {
    Domain,
    Problem,
}
