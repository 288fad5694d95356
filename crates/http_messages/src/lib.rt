//! Requests and answers of HTTP/1.1 (RFC 9110, RFC 9112), message by message: where a head ends, the verdict on it, the
//! route of a path, the command in a body, and the bytes of an answer.
#![tactic(auto)]

pub mod answers;
pub mod body_form;
mod digits;
pub mod head_scan;
pub mod head_verdict;
pub mod members;
pub mod routes;
pub mod status;
pub mod table;
pub mod targets;
pub mod worked;
