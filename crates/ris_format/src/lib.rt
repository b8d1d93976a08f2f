//! Maps records to RIS records and back. It knows which tag carries which field; it does not know the lines of a RIS
//! file, nor databases. It promises the tables' mapping both ways, and that a record of the profile is the same again.
#![tactic(auto)]

mod braces;
mod dates;
mod escaping;
mod fault;
mod fields;
mod from_record;
mod judging;
mod keeping;
mod keywords;
mod kinds;
mod laws;
mod lines;
mod new_entry;
mod pages;
mod people;
mod profile;
mod text;
mod to_record;

pub use fault::MappingFault;
pub use fields::{is_always_written, ris_names};
pub use from_record::{dropped_of, drops, ris_of, to_ris, write_entry};
pub use laws::{a_record_of_the_profile_is_kept, escaped_texts_balance, given_records_fit};
pub use new_entry::{into_entry, to_entry};
pub use profile::in_profile;
pub use ris_text::{RisFault, RisFile, RisLine, RisRecord, read_ris, write_ris};
pub use to_record::{from_ris, from_ris_as};
