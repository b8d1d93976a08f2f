//! What a run says besides its output, each on a line of its own.

/// The message of a reader that failed.
pub const READ_FAULT: &[u8] = b"bibkeep: read fault\n";

/// The message of a writer that failed.
pub const WRITE_FAULT: &[u8] = b"bibkeep: write fault\n";

/// The message of a journal that does not fit its file.
pub const JOURNAL_MISMATCH: &[u8] = b"bibkeep: 54 JournalMismatch\n";
