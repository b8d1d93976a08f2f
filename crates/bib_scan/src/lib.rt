//! Reads `.bib` files without losing a byte. It knows bytes and the grammar, and which texts are names, keys and types, and not what a
//! field means. It promises the one reading of a file with its places, or the first byte at which no valid file continues.
#![tactic(auto)]

mod body;
mod braces;
mod class;
mod fault;
mod fields;
mod laws;
mod layout;
mod near;
mod note;
mod opening;
mod parts;
mod reader;
mod reading;
mod row;
mod spans;
mod text;
mod value;
mod view;

pub use fault::ReadFault;
pub use fields::{FieldView, Fields};
pub use laws::{clean_before_sign, cut_ends, joined_readings, one_fault, one_place, one_reading};
pub use layout::Layout;
pub use note::Note;
pub use opening::is_clean_trail;
pub use parts::{Parts, only_part, read_value};
pub use reader::{FILE_LIMIT, ItemRead, Reader};
pub use reading::read;
pub use text::{is_balanced, is_key, is_name, is_type};
pub use value::Part;
pub use view::{ItemView, Kind};
