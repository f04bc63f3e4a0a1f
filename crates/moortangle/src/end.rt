// The end of a stream.
pub use write_ends::write_end;
