// The calls of the index. Each takes any words, numbers and bytes; what it refuses it leaves as it was.
#![tactic(auto)]

// Make a table: the blank one of an order and a salt, that of these and a strictly rising list of keys with their measures, that of an image, or that of a load.
pub use call_build::{build, set_up};
pub use call_image::read;
pub use call_load::load;

// Change a table: delete a key, or insert one with its measure.
pub use call_delete::delete;
pub use call_insert::insert;

// Ask a table: all about one key, a batch of keys together, the keys from one to another, or these key by key, from a place that moves on.
pub use call_batch::{Question, look_up_batch};
pub use call_lookup::look_up;
pub use call_range::range;
pub use call_step::{Moved, Place, step, step_at};

// Write a table's image, or its printed pages; list an image.
pub use call_image::write;
pub use call_list::list;
pub use call_pages::pages;

// The size of a measure in Paris points; no table is lent.
pub use call_points::points;
