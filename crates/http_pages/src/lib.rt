//! Routes and pages of the desk over HTTP, and the client that asks a desk that serves for a report.
//!
//! A *route* is what a method and a target ask for. `Paths::route` finds it in one table of paths, and `admit` reports
//! the first thing that is wrong with a request before its body is read. A *page* is a status and a body; `page_bytes`
//! returns its bytes. Bodies are JSON in its compact text, with the members of each object in the order of their names,
//! the text of a report, or a page for browsers.
//!
//! `ask` sends one request over a reader and a writer, and reads the whole page that answers it: a report, or that there is no such
//! journey. Nothing is returned of a page that is not whole.
//!
//! Words: a *verb* is a method that some path has, a *place* what stands at a path. A *target* is what is asked for, as
//! `/reports/stock?--calendar`. It goes out as it is, so `is_target` says which texts may.
#![tactic(auto)]

mod answer_pages;
mod answers;
mod asking;
mod bodies;
mod heads;
mod plans;
mod routes;
mod values;

pub use answer_pages::Answer;
pub use answers::{Body, HtmlPage, Page, denied_page, refused_page, reply_page, shown_page};
pub use asking::{Unanswered, ask, is_target};
pub use bodies::{
    Owners, agent_body, brief_body, health_body, journey_body, mine_body, plan_body, refusal_body,
    reply_body, stopping_body, unfinished_body,
};
pub use heads::{Status, page_bytes};
pub use routes::{Denied, Paths, Route, Unrouted, Verb, admit};
