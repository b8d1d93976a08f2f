//! Reads and writes the text of RIS files. It knows lines and their tags, and not which tag carries which field of an
//! entry. It promises the records that a text says, or the first line at which it goes wrong; and texts that are read
//! back as what was written.
#![tactic(auto)]

mod fault;
mod forms;
mod joining;
mod laws;
mod lines;
mod reading;
mod records;
mod skipping;
mod tags;
mod writing;

pub use fault::RisFault;
pub use forms::{are_well_formed, is_well_formed};
pub use laws::{bare_texts_fit, one_meaning, skipped_lines_are_counted, the_text_is_read_back};
pub use reading::{Unread, read_ris};
pub use records::{RisFile, RisLine, RisRecord};
pub use skipping::{SkippedLine, SkippedLines};
pub use writing::{write_line, write_record, write_ris};
