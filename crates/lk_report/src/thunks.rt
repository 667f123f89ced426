//! The lines of the report on thunks: the blocks that files own, and then the thunks of all blocks.

ghost use Rattle.std.specs.Prelude.{◌≡◌, ◌++◌, string_bytes, IfOk, map};
ghost use Rattle.lk_report.specs.Report.{block_line, block_text, block_thunks, each, thunk_line};

use lk_layout::Layout;
use lk_link::{FileId, SymbolId};
use lk_thunks::ThunkBlock;
use std::alloc::AllocError;

/// Bytes that a thunk's line mostly has room in.
const THUNK_LINE: usize = 28;

/// How many bytes the lines mostly have.
pub(crate) fn thunks_room(layout: &Layout<'_>) -> usize {
    layout.thunk_count().saturating_mul(THUNK_LINE)
}

/// The lines of the blocks that files own, and then those of all thunks.
pub(crate) fn write_thunks(text: &mut String, layout: &Layout<'_>) -> Result<(), AllocError>
    ensures { IfOk result (λ _. string_bytes text.new ≡ string_bytes text.old
        ++ (each block_text 0 layout.now.thunk_block_owners ++ each (block_thunks layout.now) 0 layout.now.thunk_blocks)) }
{
    write_blocks(text, layout.thunk_block_owners())?;
    write_all(text, layout, layout.thunk_blocks())
}

/// The lines of the blocks that a file owns, by number.
fn write_blocks(text: &mut String, owners: &[Option<FileId>]) -> Result<(), AllocError>
    ensures { IfOk result (λ _. string_bytes text.new ≡ string_bytes text.old ++ each block_text 0 owners.now) }
{
    for (number, owner) in owners.iter().enumerate() {
        write_block(text, number, *owner)?;
    }
    Ok(())
}

/// The line of a block, if a file owns it.
#[tactic(auto, unfolding(crate::specs::Report::block_text, crate::specs::Report::block_line))]
fn write_block(text: &mut String, number: usize, owner: Option<FileId>) -> Result<(), AllocError>
    ensures { IfOk result (λ _. string_bytes text.new ≡ string_bytes text.old ++ block_text number owner) }
{
    let Some(owner) = owner else {
        return Ok(());
    };
    let group = owner.group;
    let file = owner.file;
    write!(text, "block {number} {group} {file}\n")
}

/// The lines of the thunks of a layout's blocks, by number.
fn write_all(
    text: &mut String,
    layout: &Layout<'_>,
    blocks: &[ThunkBlock],
) -> Result<(), AllocError>
    ensures { IfOk result (λ _. string_bytes text.new ≡ string_bytes text.old ++ each (block_thunks layout.now) 0 (map (λ b. b.symbols) blocks.now)) }
{
    for (number, block) in blocks.iter().enumerate() {
        write_thunks_of(text, layout, number, block.symbols.as_slice())?;
    }
    Ok(())
}

/// The lines of a block's thunks, in the order of their symbols.
fn write_thunks_of(
    text: &mut String,
    layout: &Layout<'_>,
    block: usize,
    symbols: &[SymbolId],
) -> Result<(), AllocError>
    ensures { IfOk result (λ _. string_bytes text.new ≡ string_bytes text.old ++ block_thunks layout.now block symbols.now) }
{
    for (place, symbol) in symbols.iter().enumerate() {
        let address = layout.thunk_address(block, place);
        write_thunk(text, block, *symbol, address)?;
    }
    Ok(())
}

/// The line of a thunk.
#[tactic(auto, unfolding(crate::specs::Report::thunk_line))]
fn write_thunk(
    text: &mut String,
    block: usize,
    symbol: SymbolId,
    address: Option<u64>,
) -> Result<(), AllocError>
    ensures { IfOk result (λ _. string_bytes text.new ≡ string_bytes text.old ++ thunk_line block symbol address) }
{
    let symbol = symbol.as_u32();
    match address {
        Some(address) => write!(text, "thunk {block} {symbol} 0x{address:x}\n"),
        None => write!(text, "thunk {block} {symbol} -\n"),
    }
}
