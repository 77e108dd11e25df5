//! The positions of each symbol's coefficients among all coefficients.

ghost use Rattle.std.specs.Prelude.{◌≡◌, ◌<◌, ◌^◌, length, IfOk};
ghost use Rattle.std.specs.List.{All};
ghost use Rattle.rank_search.specs.Blocks.{block_at, with_position, AreBlocks};

use crate::coefficients::Coefficient;
use poly_terms::Memory;
use std::alloc::Global;

/// The positions from `first` on and before `end`.
#[derive(Clone, Copy, PartialEq, Eq)]
pub(crate) struct Block {
    pub first: u32,
    pub end: u32,
}

/// For each of this many symbols, a block that contains all its coefficients. The time is linear in symbols and
/// coefficients.
pub(crate) fn blocks_of(
    alloc: Global,
    symbols: usize,
    coefficients: &[Coefficient],
) -> Result<Vec<Block>, Memory>
    requires few { length coefficients.now < 2 ^ 30 }
    requires inside { All (λ c. c.symbol < symbols) coefficients.now }
    ensures { IfOk result (λ blocks. AreBlocks (length coefficients.now) blocks.items coefficients.now) }
{
    let mut blocks = vec![in alloc; Block { first: 0, end: 0 }; symbols]?;
    for (position, c) in coefficients.iter().enumerate() {
        let symbol = c.symbol as usize;
        blocks[symbol] = extended(blocks[symbol], position as u32);
    }
    Ok(blocks)
}

// The block extended to a later position, or to that one alone if the block is empty.
fn extended(block: Block, position: u32) -> Block
    requires { position < 2 ^ 30 }
    ensures { result ≡ with_position block position }
{
    if block.first == block.end {
        Block {
            first: position,
            end: position + 1,
        }
    } else {
        Block {
            first: block.first,
            end: position + 1,
        }
    }
}

/// The block of a symbol.
pub(crate) fn block_of(blocks: &[Block], symbol: u32) -> Block
    ensures { result ≡ block_at blocks.now symbol }
{
    match blocks.get(symbol as usize) {
        Some(block) => *block,
        None => Block { first: 0, end: 0 },
    }
}
