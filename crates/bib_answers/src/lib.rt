//! What the commands that only read answer to the bytes of one file or of several: `cat`, `check`, `lint`, `show`, `entry`, `cite`,
//! `labels`, `json`, `names`, `newkeys` and `extract`; and how an answer says that a file is not read. It knows no journals and no
//! edits, no readers and no writers. It promises that output, message and status are a stated function of these bytes.
#![tactic(auto)]

mod answers;
mod cat;
mod check;
mod cite;
mod citing;
mod empty_parents;
mod entry;
mod extract;
mod finding_lines;
mod findings;
mod gap_findings;
mod json;
mod kinds;
mod labels;
mod lines;
mod lint;
mod listing;
mod messages;
mod missing_keys;
mod name_filter;
mod named_files;
mod names;
mod newkeys;
mod numbered;
mod opening;
mod positions;
mod raw;
mod reporting;
mod seen_names;
mod show;
mod standings;
mod text_findings;
mod told_keys;
mod walking;
mod warnings;
mod written;

pub use answers::{Answer, Outcome, done, no_such_entry, outcome_of, refused, too_long, unread};
pub use cat::answer_cat;
pub use check::{answer_check, check_in};
pub use cite::{answer_cite, cite_in};
pub use citing::all_cited;
pub use entry::{answer_entry, entries_in};
pub use extract::{answer_extract, extract_in};
pub use json::{answer_json, json_in};
pub use labels::{answer_labels, labels_in};
pub use lint::{answer_lint, lint_fault, lint_in};
pub use messages::{fault_name, placed_line, refusal_in};
pub use named_files::NamedFiles;
pub use names::{answer_names, name_fault_answer, names_in, persons};
pub use newkeys::{answer_newkeys, newkeys_in};
pub use opening::open;
pub use show::{answer_show, show_in};
