//! Keeps an open file with its history. It knows edits, undo and redo, and the steps that each of them makes; it does
//! not know what an edit means. It is the one owner of a database that changes. It promises the present file of the
//! history, and that a refusal changes nothing.
#![tactic(auto)]

mod changing;
mod closing;
mod fault;
mod growing;
mod inserting;
mod inside;
mod laws;
mod loading;
mod open_step;
mod other_entries;
mod packed_replay;
mod performing;
mod renaming;
mod replay;
mod saved_loads;
mod saving;
mod session;
mod stepping;
mod text_len;
mod untouched_items;

pub use bib_data::{DEPTH_LIMIT, LABEL_LIMIT, Label, Request, is_label};
pub use changing::{Changes, Turned, read_changes, redo_changes, undo_changes};
pub use fault::SessionFault;
pub use journal_format::{CHANGE_LIMIT, STEP_TEXTS_LIMIT, Step};
pub use laws::{
    a_journal_keeps_one_history, requests_have_one_result, several_runs_are_one_session,
};
pub use other_entries::other_entries_keep_their_records;
pub use performing::{Performed, perform, perform_one, repeat};
pub use renaming::{
    a_script_of_renamings_keeps_every_record, keys_are_made_once, newkeys_are_those_of_regenerate,
    renaming_keeps_every_record,
};
pub use saved_loads::what_is_saved_is_loaded;
pub use saving::Saved;
pub use session::Session;
pub use untouched_items::items_stay_as_they_are;
