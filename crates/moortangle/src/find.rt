// One value of a record by its place, and how many instants are below a sought one.
pub use read_entries::find::{look_up, look_up_correction, search};
