//! The messages of a stream of bytes, by two grammars: the desk's profile of HTTP/1.1 (strict mode), and that of RFC 9112 (lenient mode), by which
//! libraries, proxies and pools write.
//!
//! `first_message` and `first_wide_message` return the first message of bytes as soon as it is whole. What the desk refuses a
//! head for is reported with it, and a refused head has no body. A wide request comes with the request of the profile for which
//! it stands; `BodyReader` reads its body, in whatever pieces it arrives, and `go_on_is_due` says when `100 Continue` is sent.
//!
//! Words: a *front* is a prefix of the stream. It is *decided* (in names: told) where it ends with an empty line or has as many
//! bytes as a head may have: there it is known whether it is a head. A message is *wide* where it is read by the grammar of RFC
//! 9112, and *plain* where the profile reads it. The *framing* of a body says where it ends.
#![tactic(auto)]

mod asked;
mod bodies;
mod denials;
mod framing;
mod heads;
mod laws;
mod places;
mod plain;
mod requests;
mod versions;
mod wide_heads;
mod wide_messages;

pub use asked::{AskedKind, asked_kind};
pub use bodies::{BodyFault, BodyReader, Progress};
pub use denials::Denial;
pub use framing::{BodyKind, Unframed, body_kind};
pub use laws::{
    bodies_are_passed, cuts_agree, heads_are_told, messages_stay, no_body_is_a_head, one_body,
    one_first, one_reading, page_is_asked_twice, pages_come_first, request_in_a_body,
};
pub use places::{LONGEST_HEAD, decided_front};
pub use requests::{Message, Request, first_message};
pub use wide_messages::{WideMessage, WideRequest, first_wide_message, go_on_is_due};
