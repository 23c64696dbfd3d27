//! The desk over one SQLite database: one commit for each event, and after a crash the old state or the new one.
//!
//! `open_from` finds the state that a store represents, and creates the tables if there are none. `TableBook` is the
//! book over the tables: `sql_commands` executes its commands, and `sql_reads` its reads. `read_stock`, `read_unfinished` and
//! `read_owned` are the lists that it returns whole: each is one query, whose rows are taken one after another.
//!
//! `migrate` brings the tables of an older file to the newest version in one commit, and `index` adds the index of own journeys.
//! The ledger and the kept replies stay as they are; after a crash at any moment the file has its old tables or the new ones.
//!
//! Words: a connection *keeps* a state if its tables represent the state and a crash leaves just that state. A book *may act*
//! if its store is up, its agents have their form, and enough rowids are left. The *items* of version 1 are in `entry`, and those
//! of version 2 in `entry2`; migration *copies* them.
#![tactic(auto)]

mod books;
mod brief_lists;
mod counting;
mod faults;
mod indexing;
mod laws;
mod migrate_faults;
mod migrating;
mod opening;
mod statements;
mod stock_lists;
mod traces;

pub use books::TableBook;
pub use faults::OpenFault;
pub use indexing::{Indexed, index};
pub use laws::new_desk_may_act;
pub use migrate_faults::MigrateFault;
pub use migrating::{Migrated, migrate};
pub use opening::{Opened, open_from};
