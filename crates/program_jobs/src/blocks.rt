//! A writer that passes its bytes on in blocks, to a writer that it borrows.
//!
//! A call that is generic in its writer says of it only what its contents become. So in a contract the contents of `Blocks` begin
//! with two numbers: by which reference it writes, and how many bytes that writer had. Whoever may only append to them cannot
//! exchange the one nor take back the other.
ghost use Rattle.std.specs.Prelude.{◌≤◌, vec_len};

use std::io::{self, ErrorKind, Write};

/// How many bytes are gathered before they are passed on.
pub(crate) const BLOCK: usize = 8192;

/// A writer that gathers bytes, and passes them on in blocks.
pub(crate) struct Blocks<'a, W> {
    pub(crate) writer: &'a mut W,
    /// The bytes that are gathered.
    pub(crate) bytes: &'a mut Vec<u8>,
    /// How many of them were passed on already.
    pub(crate) at: usize,
    /// How many bytes were passed on in all.
    pub(crate) passed: u64,
    ghost within: { at ≤ vec_len bytes.now },
}

impl<W> Drop for Blocks<'_, W> {
    ghost use Rattle.std.specs.Prelude.{◌≡◌};

    fn drop(self)
        ensures { self.exit.0.now ≡ self.entry.writer.now }
    {
        let Self {
            writer: _,
            bytes: _,
            at: _,
            passed: _,
        } = self;
    }
}

impl<W: Write> Blocks<'_, W> {
    ghost use Rattle.std.specs.Prelude.{◌≡◌, [], OnOk};
    ghost use Rattle.std.specs.Io.KnownBytes.{Keeps};
    ghost use Rattle.program_jobs.specs.Blocks.{blocks_contents, unsent};

    /// Passes on the bytes that are gathered.
    #[tactic(auto, using(crate::proofs::BlockLemmas::keeps_then, crate::proofs::BlockLemmas::emptied))]
    pub(crate) fn pass_on(&mut self) -> io::Result<()>
        ensures kept { Keeps (blocks_contents W.contents self.old)
            (blocks_contents W.contents self.new) }
        ensures sent { OnOk result (unsent self.new ≡ []) }
    {
        for _ in 0..u64::MAX {
            if self.at >= self.bytes.len() {
                self.at = 0;
                self.bytes.clear();
                return Ok(());
            }
            self.pass_some()?;
        }
        Err(io::Error::from(ErrorKind::Other))
    }

    /// Passes on some of them by one call, which may be interrupted.
    fn pass_some(&mut self) -> io::Result<()>
        ensures kept { Keeps (blocks_contents W.contents self.old)
            (blocks_contents W.contents self.new) }
    {
        let rest = &self.bytes.as_slice()[self.at..];
        if self.passed > u64::MAX - rest.len() as u64 {
            return Err(io::Error::from(ErrorKind::Other));
        }
        match self.writer.write(rest) {
            Ok(0) => Err(io::Error::from(ErrorKind::WriteZero)),
            Ok(count) => {
                self.at += count;
                self.passed += count as u64;
                Ok(())
            }
            Err(error) if error.kind() == ErrorKind::Interrupted => Ok(()),
            Err(error) => Err(error),
        }
    }

    /// Passes on the bytes that are gathered, if they are a block.
    fn make_room(&mut self) -> io::Result<()>
        ensures kept { Keeps (blocks_contents W.contents self.old)
            (blocks_contents W.contents self.new) }
    {
        if self.bytes.len() < BLOCK {
            return Ok(());
        }
        self.pass_on()
    }
}

impl<W: Write> Write for Blocks<'_, W> {
    ghost use Rattle.program_jobs.specs.Blocks.{blocks_contents};

    ghost contents = { blocks_contents W.contents };

    #[tactic(auto, using(crate::proofs::BlockLemmas::gathers))]
    fn write(&mut self, bytes: &[u8]) -> io::Result<usize> {
        self.make_room()?;
        let count = bytes.len().min(BLOCK);
        self.bytes.extend_from_slice(&bytes[..count])?;
        Ok(count)
    }

    #[tactic(auto, using(crate::proofs::BlockLemmas::keeps_then, crate::proofs::BlockLemmas::flushes))]
    fn flush(&mut self) -> io::Result<()> {
        self.pass_on()?;
        self.writer.flush()
    }
}
