//! The reply that is kept for an agent under a key.
ghost use Rattle.std.specs.Prelude.{◌≡◌, IfErr, IfOk};
ghost use Rattle.saga_core.specs.Views.{kept_under};
ghost use Rattle.sql_commands.specs.Answering.{IsKeptLine, ReadsReply};
ghost use Rattle.sql_reads.specs.GoodRows.{IsMemory};
ghost use Rattle.sql_reads.specs.Reads.{Read};

use commands::{Agent, Fault, Key, Reply};
use desk_sql::{KeptAnswer, find_answer};
use sql_model::fault_of;
use sqlite::{Alter, Connection};
use std::alloc::Global;

/// The reply whose line was kept. A line that is no reply is a fault of the store.
pub(crate) fn reply_in(alloc: Global, kept: &KeptAnswer) -> Result<Reply, Fault>
    ensures reply { IfOk result (ReadsReply kept.now) }
    ensures there { IsKeptLine kept.now → IfErr result IsMemory }
{
    match Reply::from_line(alloc, kept.reply.as_str()) {
        Ok(Some(reply)) => Ok(reply),
        Ok(None) => Err(Fault::Store),
        Err(_) => Err(Fault::Memory),
    }
}

/// Returns the reply that is kept for an agent under a key, if one is.
pub fn read_kept<S: Alter>(
    alloc: Global,
    conn: &mut Connection<S>,
    agent: &Agent,
    key: &Key,
) -> Result<Option<Reply>, Fault>
    ensures { Read S.Store conn.old conn.new result
        (λ s found. found ≡ kept_under s agent.now key.now) }
{
    match find_answer(conn, agent.as_str(), key.as_str()) {
        Ok(None) => Ok(None),
        Ok(Some(kept)) => match reply_in(alloc, &kept) {
            Ok(reply) => Ok(Some(reply)),
            Err(fault) => Err(fault),
        },
        Err(error) => Err(fault_of(&error)),
    }
}
