//! Messages decoded: what a request or a reply says, as a record of what reading its bytes gives,
//! and that record as a text and as JSON. Bytes that can't be read give a fault in place of a
//! record.
#![tactic(auto)]

mod attributes;
mod attributes_text;
mod bytes;
mod fields;
mod put_json;
mod reply;
mod reply_text;
mod request;
mod request_text;
mod segments;

pub use attributes::{
    AttributeView, Attributes, AttributesView, IdentityView, answered_attributes, asked_attributes,
    read_attribute, read_identity, set_instance,
};
pub use attributes_text::put_attributes_json;
pub use bytes::Pairs;
pub use fields::{intervals, kind_name, priority_name, tick_length, trigger_name};
pub use put_json::{put_path_json, put_reply_json, put_request_json, put_triad_json};
pub use reply::{Answer, Reply, decode_reply};
pub use reply_text::StatusText;
pub use request::{Asked, Meaning, Request, decode_request};
pub use segments::PathText;
