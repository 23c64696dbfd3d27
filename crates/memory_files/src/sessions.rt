//! What is done with an open database.
ghost use Rattle.std.specs.Prelude.{◌≡◌, false, None};

use sqlite::{Alter, Connection};
use std::alloc::Global;
use std::test::Fail;

/// What a test does between the opening of a database and its closing. `R` is what ends the test.
pub trait Session<R> {
    /// Uses the connection, and returns it.
    fn run<S: Alter + Drop>(
        &mut self,
        rt: &R,
        alloc: Global,
        conn: Connection<S>,
    ) -> Result<Connection<S>, Fail>
        requires outside { conn.in_transaction ≡ false }
        requires unlimited { conn.step_limit ≡ None };
}
