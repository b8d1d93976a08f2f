//! The engine for callers that are not written in Rattle: functions that C can call. Each takes a handle, passes its arguments to
//! one call of `bib_state`, and reports what came of it. It decides nothing, keeps nothing outside handles, and knows neither
//! files nor paths. It promises that the state behind a handle changes as that call says, or stays.
#![tactic(auto)]

mod asking;
mod calls;
mod exports;
mod files;
mod handle;
mod loose;
mod report;
mod texts;
mod words;
