//! The image: the text of a state of the file machine. It is written to a file of a host, which takes no memory, and
//! bytes are read as the store whose image they are.
#![tactic(auto)]

mod adding;
mod decoding;
mod entries;
mod entry;
mod fault;
mod faults;
mod fields;
mod image;
pub mod laws;
mod line;
mod lines;
mod names;
mod reading;
mod records;
mod tag;
mod target;
mod version;

pub use cm_io::Kind;
pub use decoding::decode;
pub use fault::ImageFault;
pub use image::encode;
