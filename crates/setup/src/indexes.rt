// The three indexes, each in its part of the workspace.
ghost use Rattle.std.specs.Prelude.{◌≤◌, ◌<◌, length};
ghost use Rattle.files.specs.Names.{names_in};
ghost use Rattle.index.specs.Symbols.{Symbols};
ghost use Rattle.index.specs.Regions.{Regions};
ghost use Rattle.index.specs.Blocks.{Blocks};
ghost use Rattle.workspace.specs.Parts.{workspace_size};
ghost use Rattle.setup.specs.Post.{Indexes, IndexesBlocks};

use index::blocks::fill_blocks;
use index::regions::fill_regions;
use index::symbols::fill_symbols;
use workspace::{BLOCKS, QUESTIONS, REGIONS, SYMBOLS};

// The symbols of the routine's names, and the regions: how many entries the index of these has.
pub fn set_indexes(
    names: &[u8],
    world_names: &[u8],
    symbols: &[u8],
    regions: &[u8],
    ws: &mut [u8],
) -> usize
    requires bound { (1 ≤ names_in names.now) × (length names.now < 65536) }
    requires symbols { (Symbols world_names.now symbols.now) × (Regions regions.now) }
    requires workspace_long { workspace_size ≤ length ws.old }
    ensures { Indexes names.now world_names.now symbols.now regions.now ws.old ws.new result }
{
    fill_symbols(names, world_names, symbols, &mut ws[SYMBOLS..REGIONS]);
    fill_regions(regions, &mut ws[REGIONS..BLOCKS])
}

// The blocks, and how many there are.
pub fn set_blocks(blocks: &[u8], ws: &mut [u8]) -> usize
    requires { (Blocks blocks.now) × (workspace_size ≤ length ws.old) }
    ensures { IndexesBlocks blocks.now ws.old ws.new result }
{
    fill_blocks(blocks, &mut ws[BLOCKS..QUESTIONS])
}
