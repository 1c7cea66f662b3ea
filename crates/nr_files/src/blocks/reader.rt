//! Reads the transport blocks of a blocks file line by line, as the text arrives.

ghost use Rattle.std.specs.Prelude.{◌≡◌, ◌≢◌, ◌≤◌, ◌==◌, ◌∷◌, ◌++◌, [], All, IfErr, IfOk, List};
ghost use Rattle.std.specs.Prelude.{OnOk, Result, Some, false, length, map, ℕ};
ghost use Rattle.nr_refusal.specs.Refusal.{Gives};
ghost use Rattle.nr_files.specs.{Blocks.IsBlockLength, declared.blocks.BlocksFault.BlocksFault};
ghost use Rattle.nr_files.specs.inside.Words.{StepLeaves, StateLeaves, lines_in, said_behind};

use super::{BlocksFault, MOST_BLOCKS, block_of, strip_last};
use memchr::memchr;
use std::alloc::{AllocError, Global};

/// What has been read of a blocks file so far.
#[derive(Drop)]
pub(crate) struct BlockReader {
    alloc: Global,
    // The blocks of the lines that have ended.
    blocks: Vec<Vec<u8>>,
    // What has come of the next line. Each line is gathered in the same memory.
    line: Vec<u8>,
    // The first fault of a line, which is never `Memory`. After it nothing more is read.
    fault: Option<BlocksFault>,
    ghost few: { length blocks.items ≤ 256 },
    ghost sizes: { All (λ block. IsBlockLength (length block.items)) blocks.items },
    ghost begun: { All (λ c. (c == 10) ≡ false) line.items },
    ghost told: { fault ≢ Some BlocksFault.Read },
    ghost of_a_line: { fault ≢ Some BlocksFault.Memory },
}

impl BlockReader {
    /// Returns a reader that has read nothing.
    pub(crate) fn new(alloc: Global) -> BlockReader
        ensures { (more : List ℕ) → StateLeaves result.fault (said_behind [] (lines_in more))
            (said_behind (map (λ block. block.items) result.blocks.items)
            (lines_in (result.line.items ++ more))) }
    {
        BlockReader {
            alloc,
            blocks: Vec::new(alloc),
            line: Vec::new(alloc),
            fault: None,
        }
    }

    /// Reads the next piece of the text. After an error in the text, further pieces are ignored.
    ///
    /// # Errors
    ///
    /// `AllocError` if memory runs out.
    pub(crate) fn push(&mut self, piece: &[u8]) -> Result<(), AllocError>
        ensures { OnOk result ((said : Result (List (List ℕ)) BlocksFault) (more : List ℕ)
            → StateLeaves self.old.fault said
            (said_behind (map (λ block. block.items) self.old.blocks.items)
            (lines_in (self.old.line.items ++ (piece.now ++ more))))
            → StateLeaves self.new.fault said
            (said_behind (map (λ block. block.items) self.new.blocks.items)
            (lines_in (self.new.line.items ++ more)))) }
    {
        if self.fault.is_none() {
            self.fault = match self.read_lines(piece) {
                Ok(()) => None,
                Err(BlocksFault::Memory) => return Err(AllocError),
                Err(fault) => Some(fault),
            };
        }
        Ok(())
    }

    /// Returns the blocks of the whole text. What follows the last line feed is a line too.
    ///
    /// # Errors
    ///
    /// The first error, as `end_line` returns it.
    pub(crate) fn finish(mut self) -> Result<Vec<Vec<u8>>, BlocksFault>
        ensures said { (said : Result (List (List ℕ)) BlocksFault) → StateLeaves self.fault said
            (said_behind (map (λ block. block.items) self.blocks.items) (lines_in self.line.items))
            → Gives BlocksFault.Memory (λ blocks. map (λ block. block.items) blocks.items) result said }
        ensures few { IfOk result (λ blocks. length blocks.items ≤ 256) }
        ensures sizes { IfOk result
            (λ blocks. All (λ block. IsBlockLength (length block.items)) blocks.items) }
        ensures told { IfErr result (λ fault. fault ≢ BlocksFault.Read) }
    {
        if let Some(fault) = self.fault {
            return Err(fault);
        }
        if !self.line.is_empty() {
            self.end_line(b"")?;
        }
        Ok(self.blocks)
    }

    // Reads each line that ends in the piece, and keeps what comes after them.
    //
    // Errors: as `end_line`.
    fn read_lines(&mut self, piece: &[u8]) -> Result<(), BlocksFault>
        ensures said { (more : List ℕ) → StepLeaves BlocksFault.Memory result
            (said_behind (map (λ block. block.items) self.old.blocks.items)
            (lines_in (self.old.line.items ++ (piece.now ++ more))))
            (said_behind (map (λ block. block.items) self.new.blocks.items)
            (lines_in (self.new.line.items ++ more))) }
        ensures told { IfErr result (λ fault. fault ≢ BlocksFault.Read) }
    {
        let mut rest = piece;
        while let Some(end) = memchr(b'\n', rest) {
            self.end_line(&rest[..end])?;
            rest = &rest[end + 1..];
        }
        self.line
            .extend_from_slice(rest)
            .map_err(|_| BlocksFault::Memory)
    }

    // Reads the next line, whose end this is.
    //
    // Errors: `TooMany` (line 257), and then as `block_of`.
    fn end_line(&mut self, end: &[u8]) -> Result<(), BlocksFault>
        requires { All (λ c. (c == 10) ≡ false) end.now }
        ensures said { (lines : List (List ℕ)) → StepLeaves BlocksFault.Memory result
            (said_behind (map (λ block. block.items) self.old.blocks.items)
            ((self.old.line.items ++ end.now) ∷ lines))
            (said_behind (map (λ block. block.items) self.new.blocks.items) lines) }
        ensures begun { OnOk result (self.new.line.items ≡ []) }
        ensures told { IfErr result (λ fault. fault ≢ BlocksFault.Read) }
    {
        if self.blocks.len() == MOST_BLOCKS {
            return Err(BlocksFault::TooMany);
        }
        let number = self.blocks.len() as u32 + 1;
        self.line
            .extend_from_slice(end)
            .map_err(|_| BlocksFault::Memory)?;
        let block = block_of(self.alloc, number, strip_last(&self.line, b'\r'))?;
        self.line.clear();
        self.blocks.push(block).map_err(|_| BlocksFault::Memory)
    }
}
