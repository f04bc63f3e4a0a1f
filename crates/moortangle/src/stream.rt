// A whole stream.
pub use read_entries::stream::check;
