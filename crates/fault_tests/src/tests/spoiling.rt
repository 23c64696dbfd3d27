//! Mutants of `act`, as switches of these tests: what a desk would answer that allocates after its commit, or that
//! takes a failed commit for a done one. The environment names one by `SPOIL`, and then the tests have to fail.
use commands::{Fault, Reply};
use std::alloc::Global;
use std::env;

/// A body of `act`.
#[derive(Clone, Copy, PartialEq, Eq)]
pub enum Body {
    /// The desk's own.
    Sound,
    /// It allocates once more after its commit.
    AllocatesAfterCommit,
    /// It answers a failed commit by the reply of a done one.
    AnswersFailedCommit,
}

impl Body {
    /// The body that the environment names. Without a name it is the desk's own.
    pub fn named(rt: &HostRuntime) -> Body {
        let Ok(word) = env::var(rt, "SPOIL") else {
            return Body::Sound;
        };
        match word.as_str() {
            "allocates-after-commit" => Body::AllocatesAfterCommit,
            "answers-failed-commit" => Body::AnswersFailedCommit,
            _ => Body::Sound,
        }
    }

    /// What this body makes of an answer of the desk's own.
    pub fn answers(self, alloc: Global, own: Result<Reply, Fault>) -> Result<Reply, Fault> {
        let reply = own?;
        if self == Body::AllocatesAfterCommit {
            let room: Result<Vec<u8>, _> = Vec::with_capacity(alloc, 64);
            if room.is_err() {
                return Err(Fault::Memory);
            }
        }
        Ok(reply)
    }

    /// Whether this body takes a failed commit for a done one.
    pub fn hides_failures(self) -> bool {
        self == Body::AnswersFailedCommit
    }
}
