//! Where the texts of the callers of live blocks stand.
ghost use Rattle.std.specs.Prelude.{◌≡◌, ◌<◌, length, slice_index_or};
ghost use Rattle.leak_report.specs.Sites.{HaveSites, bytes_at, sited};

use leak_blocks::Block;

/// Texts that were kept, each once.
#[derive(Clone, Copy)]
pub struct Places<'a> {
    /// The texts, one after another.
    pub bytes: &'a [u8],
    /// For each text its range of these bytes, with its end excluded.
    pub ranges: &'a [(usize, usize)],
}

/// Where the texts of the callers of live blocks stand.
#[derive(Clone, Copy)]
pub enum CallerTexts<'a> {
    /// The callers of the blocks are ranges of these bytes: those of the log.
    OfLog(&'a [u8]),
    /// The texts were kept. For each block it is told which of them its caller's is.
    Few(Places<'a>, &'a [u8]),
    /// The same with more than 256 texts.
    Many(Places<'a>, &'a [u32]),
}

impl<'a> CallerTexts<'a> {
    /// The bytes that have the texts.
    pub(crate) fn bytes(self) -> &'a [u8]
        ensures { result.now ≡ bytes_at self.entry }
    {
        match self {
            CallerTexts::OfLog(log) => log,
            CallerTexts::Few(places, _) => places.bytes,
            CallerTexts::Many(places, _) => places.bytes,
        }
    }

    /// The block at a place, with its caller as a range of [`CallerTexts::bytes`].
    #[inline(always)]
    pub(crate) fn site(self, blocks: &[Block], i: usize) -> Block
        requires inside { i < length blocks.now }
        requires sites { HaveSites self (length blocks.now) }
        ensures { (d : Block) → result ≡ slice_index_or (sited self.entry blocks.now) i d }
    {
        match self {
            CallerTexts::OfLog(_) => blocks[i],
            CallerTexts::Few(places, numbers) => Block {
                caller: places.ranges[numbers[i] as usize],
                ..blocks[i]
            },
            CallerTexts::Many(places, numbers) => Block {
                caller: places.ranges[numbers[i] as usize],
                ..blocks[i]
            },
        }
    }
}
