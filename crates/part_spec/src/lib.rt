//! Which parts of values an edit of macros looks for, in definitions: the uses of a macro, and a text in braces or in
//! quotes. It knows no edit. There is no code here.
#![tactic(auto)]
