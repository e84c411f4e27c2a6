//! What a host answers.

/// What became of a task's folder.
#[derive(Clone, Copy, Debug, PartialEq, Eq)]
pub enum Made {
    /// It was not there, and was made.
    Made,
    /// It was there.
    Exists,
    /// It may have been made or not.
    Failed,
}

/// What became of a start.
#[derive(Clone, Copy, Debug, PartialEq, Eq)]
pub enum Started {
    /// The task was launched.
    Started,
    /// It may have been launched or not.
    Failed,
}

/// The state of a task.
#[derive(Clone, Copy, Debug, PartialEq, Eq)]
pub enum Look {
    /// Its folder is not there.
    Absent,
    /// Its folder is there, and it was not launched.
    NotStarted,
    /// It was launched, and has not ended.
    Running,
    /// It has ended with this code.
    Exited(i32),
    /// The host could not tell.
    Failed,
}
