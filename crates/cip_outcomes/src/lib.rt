//! What came of a run so far, as wide scripts speak of it: how ops, data, refused commands and
//! dropped frames are named and found in the journal, how what was expected differs from it, and
//! what waits on links or is lost where they are down.
#![tactic(auto)]

mod answers;
mod attributes;
mod counts;
mod endings;
mod links;
mod naming;
mod near;
mod ops;
mod outages;
mod outcomes;
mod refusals;
mod unmet;

pub use answers::{Answer, How, OpenSizes, answer_of};
pub use attributes::attribute_of;
pub use counts::{Counted, Datum, newest_consumed, next_count, standing_of};
pub use endings::{has_expired, newest_frame};
pub use links::{Side, frames_on, link_named, link_names, listed, module_names, stands_on};
pub use naming::{OpName, Order, Place, Subject, excerpt, module_name, module_text};
pub use near::{Near, nearest};
pub use ops::{Ops, name_of};
pub use outages::{Loss, Outage, Outages, losses_since};
pub use outcomes::{Code, Pairs, newest_arrived};
pub use refusals::{
    Given, Refusal, Sizes, assembly_size, command_in, is_refused, newest_given, order_of,
    refusal_of, refused_in,
};
pub use unmet::{Differing, DropReason, Lengths, Unmet};
