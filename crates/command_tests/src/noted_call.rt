//! Calls of a store, as they are noted. What says which calls these are is in specs/, which has no words of tests alone.

/// A call that was made.
#[derive(Debug, Drop, PartialEq)]
pub enum NotedCall {
    Create(String),
    CreateDir(String),
    Write(String, Vec<u8>),
    SyncFile(String),
    SyncDir(String),
    Rename(String, String),
    Remove(String),
}
