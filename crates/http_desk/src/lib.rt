//! Sessions of HTTP/1.1 (RFC 9110, RFC 9112) with an office, over any reader and writer.
#![tactic(auto)]

pub mod input_buffer;
pub mod laws;
pub mod message_input;
pub mod office_call;
pub mod output;
pub mod reply;
pub mod requests;
pub mod responses;
pub mod session;
pub mod session_end;
pub mod streams;
pub mod worked;
