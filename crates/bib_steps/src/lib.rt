//! Keeps the pieces of a step as those of one edit while further edits join it. It knows pieces and where they end in the
//! text that they make; it does not know files, labels or journals. It promises the composed pieces, for the time of those
//! that an edit lies near.
#![tactic(auto)]

mod amending;
mod amendment;
mod ends;
mod inside;
mod near;
mod placing;
mod replacing;
mod spans;

pub use amending::amend;
pub use amendment::{Amendment, Replacement};
pub use ends::{renew_ends, renew_ends_after};
pub use inside::{Spot, spot_of};
pub use placing::put;
pub use replacing::replace;
