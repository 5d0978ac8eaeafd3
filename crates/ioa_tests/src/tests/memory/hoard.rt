//! Memory that a test takes away, so that the next requests are refused, and how much it leaves.

use std::alloc::{AllocError, Global};

/// How many blocks are held at most.
const BLOCKS: usize = 60_000;

/// The largest block that is asked for, and the largest of those that are asked for size by size.
const LARGEST: usize = 1 << 46;

const SMALL: usize = 4096;

/// The step from one size to the next.
pub const STEP: usize = 16;

/// A piece that is larger than this is not kept for requests of its own size when it is given back.
const APART: usize = 2048;

/// The size of a block that no call asks for. While one is held, `tools/refused_calls` counts the requests of memory, and refuses one.
const MARK: usize = 24_301;

/// How much memory is left to a call.
#[derive(Clone, Copy)]
pub enum Spare {
    /// So many bytes.
    Bytes(usize),
    /// All that there is.
    All,
}

/// Blocks that are held and never read, so that nobody else has their memory.
#[derive(Drop)]
pub struct Hoard {
    blocks: Vec<Vec<u8>>,
}

impl Hoard {
    /// Takes all memory but what is left to a call: of that nothing but the block that marks when it works.
    pub fn all_but(alloc: Global, spare: Spare) -> Result<Hoard, AllocError> {
        match spare {
            Spare::Bytes(count) => Hoard::all_but_bytes(alloc, count),
            Spare::All => Hoard::mark(alloc),
        }
    }

    fn mark(alloc: Global) -> Result<Hoard, AllocError> {
        let mut blocks = Vec::with_capacity(alloc, 1)?;
        blocks.push(Vec::with_capacity(alloc, MARK)?)?;
        Ok(Hoard { blocks })
    }

    /// Takes all memory but so many bytes, which lie in one piece.
    fn all_but_bytes(alloc: Global, spare: usize) -> Result<Hoard, AllocError> {
        let mut hoard = Hoard {
            blocks: Vec::with_capacity(alloc, BLOCKS)?,
        };
        let piece: Vec<u8> = Vec::with_capacity(alloc, spare.saturating_add(APART))?;
        hoard.take_all(alloc);
        drop(piece);
        hoard.take(alloc, APART);
        Ok(hoard)
    }

    /// Takes what there is, from large blocks to small ones.
    fn take_all(&mut self, alloc: Global) {
        let mut size = LARGEST;
        for _ in 0..64 {
            if size <= SMALL {
                break;
            }
            self.take_each(alloc, size);
            size /= 2;
        }
        for step in 0..SMALL / STEP {
            self.take_each(alloc, SMALL - step * STEP);
        }
    }

    /// Takes blocks of this size, as long as there are any.
    fn take_each(&mut self, alloc: Global, size: usize) {
        for _ in 0..BLOCKS {
            if !self.take(alloc, size) {
                return;
            }
        }
    }

    /// Takes a block of this size. Whether there was one, and room to note it.
    fn take(&mut self, alloc: Global, size: usize) -> bool {
        if self.blocks.len() == self.blocks.capacity() {
            return false;
        }
        match Vec::with_capacity(alloc, size) {
            Ok(block) => self.blocks.push(block).is_ok(),
            Err(_) => false,
        }
    }
}
