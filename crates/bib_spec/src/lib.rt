//! What a `.bib` file is and means, in definitions: the pages that a reader has to believe, from bytes to records, and
//! what pieces make of a text. It knows no edit. There is no code here, only functions that do nothing and carry the
//! laws about what entries inherit and about pieces.
#![tactic(auto)]

mod inheriting;
mod replacing;

pub use inheriting::{
    a_deeper_record_only_gains, a_ring_gives_nothing_more, depth_1_is_the_parent_alone,
};
pub use replacing::{
    bytes_outside_pieces_are_kept, pieces_of_chunks_lead_from_old_to_new,
    reversed_pieces_are_the_way_back,
};
