//! Defines what it means that a list is kept in pages, and how the list changes when a page changes. It knows neither what
//! the members are nor how the pages are stored, and it has no code.
#![tactic(auto)]
