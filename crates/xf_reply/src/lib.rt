//! What is answered to a line of a session, and what is written for it.
//!
//! It stands on values and on the causes for which fields are refused, and knows nothing of sessions or crossfilters. Its
//! one promise: a reply, a refusal and each line of an answer are written as the format says, byte for byte.
#![tactic(auto)]

mod answer;
mod put;
mod refusal;
mod reply;

pub use answer::{Field, put_entry, put_events, put_fields, put_none, put_number_line, put_record};
pub use refusal::{Refusal, put_refusal};
pub use reply::{Bytes, Change, Reply, put_step};
