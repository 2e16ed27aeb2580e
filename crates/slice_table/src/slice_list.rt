ghost use Rattle.std.specs.Prelude.{◌≡◌, ◌+◌, ◌*◌, ◌^◌, ◌<◌, ◌≤◌, All, length, slice_index};
ghost use Rattle.tab_core.specs.declared.TheConstants.{ROUND};
ghost use Rattle.slice_table.specs.declared.slice_list.Block.{Block as BlockValue};
ghost use Rattle.slice_table.specs.Inside.SliceLists.{number_in, numbers_of};

use std::marker::Model;

/// How many slices a block has.
pub(crate) const PLACES: u32 = 32;

/// For each of 32 slices in a row a number: that of the first, and of each other one whether its number
/// is one more than that of the slice before it. Bit 0 tells it of the second slice.
#[derive(Clone, Copy, Drop)]
pub(crate) struct Block {
    pub first: u32,
    pub rises: u32,
}

/// For each slice a number. Contracts see the list of numbers.
///
/// It takes a bit for each slice, and eight bytes for each 32 of them.
#[derive(Drop)]
pub struct SliceList {
    blocks: Vec<Block>,
    count: u32,
}

impl Model for SliceList {
    ghost use Rattle.std.specs.Prelude.{ℕ, ◌*◌, ◌≤◌, All, List, length};
    ghost use Rattle.tab_core.specs.declared.TheConstants.{ROUND};
    ghost use Rattle.slice_table.specs.declared.slice_list.Block.{Block};
    ghost use Rattle.slice_table.specs.Inside.SliceLists.{numbers_of};

    ghost Value = { List ℕ };

    ghost view = { λ list. numbers_of list.blocks.items list.count };

    ghost invariant = { λ list. (list.count ≤ length list.blocks.items * 32)
        × All (λ (block : Block). block.first ≤ ROUND) list.blocks.items };
}

impl SliceList {
    /// The list of the first so many numbers of these blocks.
    pub(crate) fn of(blocks: Vec<Block>, count: u32) -> SliceList
        requires enough { count ≤ length blocks.items * 32 }
        requires small { All (λ (block : BlockValue). block.first ≤ ROUND) blocks.items }
        ensures { result ≡ numbers_of blocks.items count }
    {
        SliceList { blocks, count }
    }

    /// How many slices there are.
    pub fn len(&self) -> usize
        ensures { result ≡ length self.now }
    {
        self.count as usize
    }

    /// The number of a slice, which is below the count.
    pub fn number(&self, slice: usize) -> u32
        requires { slice < length self.now }
        ensures { result ≡ slice_index self.now slice }
    {
        let place = (slice % 32) as u32;
        self.blocks[slice / 32].number(place)
    }
}

impl Block {
    // The number of the slice at a place of the block.
    fn number(&self, place: u32) -> u32
        requires place { place < 32 }
        requires small { self.now.first ≤ ROUND }
        ensures { result ≡ number_in self.now place }
    {
        self.first + (self.rises & ((1 << place) - 1)).count_ones()
    }
}

/// The rises up to the place, where those before it are known: `more` is 1 where the number of the slice
/// after the place is one more, else 0.
pub(crate) fn with_rise(rises: u32, place: u32, more: u32) -> u32
    requires place { place < 32 }
    requires before { rises < 2 ^ place }
    requires one { more ≤ 1 }
    ensures { result ≡ more * 2 ^ place + rises }
{
    (more << place) + rises
}
