//! The log of a desk that serves: a line for each request, for each connection that ended, and for what an opening
//! recovered; and what a monitor is shown.
//!
//! A line has printable bytes of ASCII alone: what a peer sent is shown escaped, so that one line is one record. `Metrics`
//! counts connections, the requests that were answered, and how long commands took; `metrics_text` shows that in the text
//! format of Prometheus, version 0.0.4. Nothing here writes a line or looks at a clock.
//!
//! Words: bytes are *shown* with each byte but the printable ones as `\xNN`; a request is *again* answered where its
//! page was a kept one.
#![tactic(auto)]

mod counting;
mod endings;
mod escaping;
mod forms;
mod lines;
mod metrics;
mod recent;
mod times;

pub use counting::{Bucket, Count, Metrics};
pub use endings::Why;
pub use escaping::shown;
pub use forms::LogForm;
pub use lines::{Asked, Peer, ended_line, opened_line, request_line};
pub use metrics::metrics_text;
pub use recent::{MOST_RECENT, Recent};
pub use times::{time_text, timed_line};
