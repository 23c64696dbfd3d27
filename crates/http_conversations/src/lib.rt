//! A conversation with one peer over HTTP, with no socket of its own, and the two modes in which it is held: the desk's profile,
//! and HTTP as libraries, proxies and pools speak it.
//!
//! `receive` reads once, `answer` answers the first message that waits, and `send` writes once. What was written, and
//! then what waits to go out, is the pages of the first messages of what was received, in order, up to and with the first
//! that closes.
//!
//! `first_by` reads the first message of bytes in a mode, `answer_by` answers it, and `go_on_by` says when `100 Continue` is
//! sent. In strict mode they do what `first_message` and `answer_to` do. In lenient mode a message is answered as the one of
//! the profile that has its meaning, and its page has the lines that keep it out of caches. No page has a line that lets
//! another origin in.
//!
//! Words: an *exchange* is a message and its page; a page is *lost* where memory ran out for it, or the store failed; the
//! *stage* of a conversation says whether it still answers. A message is *meant* as the one of the profile that is carried
//! out for it; its *layout* is how the page of that one is shown; a *date line* is the field `Date` with its line end, or
//! nothing where the clock was not read.
#![tactic(auto)]

mod allowed;
mod buffers;
mod conversation;
mod dates;
mod denials;
mod laws;
mod lines;
mod modes;
mod serving;
mod showing;
mod talk;

pub use buffers::ReadBuffer;
pub use conversation::{Conversation, MOST_PENDING, MOST_READ, MOST_WAITING, Stage};
pub use laws::{asks_are_short, post_has_a_short_ask, post_is_first, said_is_first};
pub use modes::{Arrived, Layout, MOST_TEXT, Mode, answer_by, first_by, go_on_by, go_on_text};
pub use serving::{Served, serve};
