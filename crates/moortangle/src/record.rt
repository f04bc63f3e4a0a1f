// A record: written or not, read or refused.
pub use read_entries::record::{read, read_corrections};
pub use write_entries::{write, write_corrections};
