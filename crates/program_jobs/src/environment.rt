//! What a job needs beside its store and its streams.
use http_live::Turns;
use program_ends::{Ended, ProgramFault};
use std::alloc::Global;

/// The surroundings of a job: the allotment files that can be named, and who comes to a desk that serves.
pub trait Environment {
    ghost use Rattle.std.specs.Prelude.{◌≡◌, ⊤, ℕ, Bool, List, Option, None, IfErr, IfOk};
    ghost use Rattle.program_jobs.specs.Serving.{IsUnheard};
    ghost use Rattle.program_jobs.specs.Sources.{ArePrefixOf, IsFaultOfFile};

    /// Who comes to a desk that serves.
    type Guests: Turns + Drop;

    /// The bytes of the file of this name, where they are known.
    ghost bytes_of: { Self → List ℕ → Option (List ℕ) } = { λ _ _. None };

    /// What is known of those who come, once somebody listens for them.
    ghost listens_for: { Self → Self.Guests → Type 0 } = { λ _ _. ⊤ };

    /// The system failed to report what happens, so that nobody comes any more.
    ghost has_failed: { Self.Guests → Bool };

    /// Reads the file of this name, at most so many bytes of it.
    fn read_file(&mut self, alloc: Global, name: &str, most: u64) -> Result<Vec<u8>, ProgramFault>
        ensures bytes { IfOk result (λ bytes. ArePrefixOf most (bytes_of self.old name.now) bytes.items) }
        ensures fault { IfErr result IsFaultOfFile };

    /// Begins to listen at this port, for a desk whose opening recovered so many events.
    fn listen(&mut self, alloc: Global, port: u16, recovered: u64) -> Result<Self::Guests, Ended>
        ensures listens { IfOk result (listens_for self.old) }
        ensures end { IfErr result (λ ended. IsUnheard ended.end) };

    /// Takes back who was served, so that nobody is left waiting once the store is closed. Returns whether the system failed.
    fn dismiss(&mut self, guests: Self::Guests) -> bool
        ensures failed { result ≡ has_failed guests };
}
