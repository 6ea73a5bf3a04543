//! The root words of a core.

ghost use Rattle.std.specs.Prelude.{◌≡◌, ◌↔◌, ◌+◌, ◌≤◌, ℕ, IfOk, Err, List, [], length, filter, not, false};
ghost use Rattle.leak_elf.specs.Segments.{segments_of};
ghost use Rattle.leak_notes.specs.Threads.{threads_of};
ghost use Rattle.leak_blocks.specs.declared.block.Block.{Block};
ghost use Rattle.leak_blocks.specs.declared.small.Span.{Span};
ghost use Rattle.leak_blocks.specs.Small.{AreApart, CoverSame, CoverSameOutside};
ghost use Rattle.leak_roots.specs.Places.{Places, AreRanges, memory_places};
ghost use Rattle.leak_roots.specs.LeftOut.{LeftOut, freed_left_out};
ghost use Rattle.leak_roots.specs.Roots.{AreRootsOf, freed_places, has_roots, is_inside, root_places};
ghost use Rattle.leak_roots.specs.Found.{AreRootsFoundWhere};
ghost use Rattle.leak_roots.specs.Pieces.{AreCut};
ghost use Rattle.leak_roots.specs.Cut.{pieces_of};

use crate::error::CutError;
use crate::inside::leave_out;
use crate::piece::{Piece, push_memory, push_registers};
use crate::pieces::Pieces;
use crate::places::find_ranges;
use crate::range_test::{AllRanges, RangeTest};
use crate::skip::Exclusions;
use leak_blocks::{Live, SmallSpans, Span};
use leak_elf::{Image, Rest};
use leak_notes::Threads;
use std::alloc::{AllocError, Global};
use std::marker::Model;

/// The root words of a core: register words, and ranges of addresses in memory.
#[derive(Drop)]
pub struct Roots {
    registers: Vec<u64>,
    memory: Vec<(u64, u64)>,
    freed: u64,
    dead: u64,
    skips_links: bool,
}

impl Model for Roots {
    ghost Value = { Places };

    ghost view = { λ roots. record {
      registers = roots.registers.items;
      memory = roots.memory.items;
      freed = roots.freed;
      dead = roots.dead;
      skips_links = roots.skips_links;
    } };

    ghost invariant = { λ roots. AreRanges roots.memory.items };
}

impl Roots {
    /// Finds the root words of a core, given its threads, the live blocks of its log and the spans of small allocations
    /// whose freed places are left out: those of the log, or none. Which addresses of live blocks are in them changes
    /// nothing. `unwritable` says whether the words of memory that can't be written are left out.
    ///
    /// They are the register words of the threads, as they are given, and the words of 8 bytes at the multiples of 8 in
    /// segments that share no byte with a live block and whose bytes the core holds: registers, stacks and static data,
    /// as Boehm's collector takes them. These are the core's root words only if the threads are the core's. No slack, no
    /// dead stack and no link to a free chunk is left out. It fails only if memory is refused.
    pub fn find<R: Rest>(
        alloc: Global,
        image: &Image<'_, R>,
        threads: &Threads,
        live: &Live,
        small: &SmallSpans,
        unwritable: bool,
    ) -> Result<Roots, AllocError>
        ensures registers { IfOk result (λ roots. roots.registers ≡ threads.now.registers) }
        ensures memory { IfOk result (λ roots. memory_places roots.memory
            ≡ root_places (freed_left_out unwritable small.now) image.now live.now.blocks) }
        ensures freed { let left = freed_left_out unwritable small.now in
            IfOk result (λ roots. roots.freed ≡ length (freed_places left image.now live.now.blocks)) }
        ensures dead { IfOk result (λ roots. roots.dead ≡ 0) }
        ensures links { IfOk result (λ roots. roots.skips_links ≡ false) }
        ensures of_core { (spans : List Span)
            → CoverSameOutside live.now.blocks small.now spans
            → threads.now ≡ threads_of image.now
            → IfOk result (AreRootsOf (freed_left_out unwritable spans) image.now live.now.blocks) }
        // each block, and each span, cuts at most one range in two
        ensures few { let segments = filter (has_roots unwritable) (segments_of image.now) in
            IfOk result (λ roots. length roots.memory
            ≤ length segments + length live.now.blocks + length small.now) }
    {
        let registers = threads.registers().to_vec(alloc)?;
        let blocks = live.blocks();
        let room = blocks.len().saturating_add(image.segments().len());
        let list = Vec::with_capacity(alloc, room)?;
        let spans = small.ranges();
        let found = find_ranges(list, &AllRanges, image, blocks, unwritable, spans)?;
        Ok(Roots::found(registers, found))
    }

    /// The same, but keeps only the ranges of memory that the test keeps. Each is tested as it is found, so there is never a
    /// list of all, which has about as many ranges as there are blocks. Freed places are counted in all memory.
    pub fn find_where<R: Rest, T: RangeTest>(
        alloc: Global,
        image: &Image<'_, R>,
        threads: &Threads,
        live: &Live,
        excluded: &Exclusions<'_>,
        test: &T,
    ) -> Result<Roots, AllocError>
        ensures found { let left = excluded.now in
            IfOk result (AreRootsFoundWhere (T.keeps test.now) left.unwritable left.small.now
            image.now threads.now live.now.blocks) }
        ensures few { let left = excluded.now in
            let segments = filter (has_roots left.unwritable) (segments_of image.now) in
            IfOk result (λ roots. length roots.memory
            ≤ length segments + length live.now.blocks + length left.small.now) }
    {
        let registers = threads.registers().to_vec(alloc)?;
        let Exclusions { small, unwritable } = *excluded;
        let (blocks, spans) = (live.blocks(), small.ranges());
        let list = Vec::new(alloc);
        let found = find_ranges(list, test, image, blocks, unwritable, spans)?;
        Ok(Roots::found(registers, found))
    }

    // The root words in these ranges. Of the places that are left out, so many are freed, and none is in dead stack.
    fn found(registers: Vec<u64>, found: (Vec<(u64, u64)>, u64)) -> Roots
        requires { AreRanges found.0.items }
        ensures { result ≡ record {
          registers = registers.items;
          memory = found.0.items;
          freed = found.1;
          dead = 0;
          skips_links = false;
        } }
    {
        let (memory, freed) = found;
        Roots {
            registers,
            memory,
            freed,
            dead: 0,
            skips_links: false,
        }
    }

    /// The register words.
    pub fn registers(&self) -> &[u64]
        ensures { result.now ≡ self.now.registers }
    {
        self.registers.as_slice()
    }

    /// The ranges of addresses, by ascending address, each with its end excluded. Each multiple of 8 in them holds a
    /// root word.
    pub fn memory(&self) -> &[(u64, u64)]
        ensures value { result.now ≡ self.now.memory }
        ensures ranges { AreRanges result.now }
    {
        self.memory.as_slice()
    }

    /// How many places in memory hold no root word because they are freed.
    pub fn freed(&self) -> u64
        ensures { result ≡ self.now.freed }
    {
        self.freed
    }

    /// How many places in memory hold no root word because they are in dead stack.
    pub fn dead(&self) -> u64
        ensures { result ≡ self.now.dead }
    {
        self.dead
    }

    /// The same root words without those in memory whose 8 bytes each lie in a span of the slack of live blocks. The
    /// numbers of freed and of dead places stay the same. It fails only if memory is refused.
    pub fn skip_slack(self, alloc: Global, slack: &[Span]) -> Result<Roots, AllocError>
        requires { AreApart slack.now }
        ensures registers { IfOk result (λ roots. roots.registers ≡ self.registers) }
        ensures memory { IfOk result (λ roots. memory_places roots.memory
            ≡ filter (λ a. not (is_inside slack.now a)) (memory_places self.memory)) }
        ensures freed { IfOk result (λ roots. roots.freed ≡ self.freed) }
        ensures dead { IfOk result (λ roots. roots.dead ≡ self.dead) }
        ensures links { IfOk result (λ roots. roots.skips_links ≡ self.skips_links) }
        ensures of_core { (left : LeftOut) (file : List ℕ) (blocks : List Block)
            (others : List Span) → CoverSame slack.now others
            → AreRootsOf (record left { slack = []; dead = [] }) file blocks self
            → IfOk result (AreRootsOf (record left { slack = others; dead = [] }) file blocks) }
        ensures few { IfOk result (λ roots.
            length roots.memory ≤ length self.memory + length slack.now) }
    {
        let Roots {
            registers,
            memory,
            freed,
            dead,
            skips_links,
        } = self;
        let (memory, _) = leave_out(alloc, memory, slack)?;
        Ok(Roots {
            registers,
            memory,
            freed,
            dead,
            skips_links,
        })
    }

    /// The same root words without those in memory whose 8 bytes each lie in a span of dead stack, which are counted. The
    /// number of freed places stays the same. It fails only if memory is refused.
    pub fn skip_dead(self, alloc: Global, dead: &[Span]) -> Result<Roots, AllocError>
        requires { AreApart dead.now }
        ensures registers { IfOk result (λ roots. roots.registers ≡ self.registers) }
        ensures memory { IfOk result (λ roots. memory_places roots.memory
            ≡ filter (λ a. not (is_inside dead.now a)) (memory_places self.memory)) }
        ensures freed { IfOk result (λ roots. roots.freed ≡ self.freed) }
        ensures dead { IfOk result (λ roots.
            roots.dead ≡ length (filter (is_inside dead.now) (memory_places self.memory))) }
        ensures links { IfOk result (λ roots. roots.skips_links ≡ self.skips_links) }
        ensures of_core { (left : LeftOut) (file : List ℕ) (blocks : List Block)
            (others : List Span) → CoverSame dead.now others
            → AreRootsOf (record left { dead = [] }) file blocks self
            → IfOk result (AreRootsOf (record left { dead = others }) file blocks) }
        ensures few { IfOk result (λ roots.
            length roots.memory ≤ length self.memory + length dead.now) }
    {
        let Roots {
            registers,
            memory,
            freed,
            skips_links,
            ..
        } = self;
        let (memory, count) = leave_out(alloc, memory, dead)?;
        Ok(Roots {
            registers,
            memory,
            freed,
            dead: count,
            skips_links,
        })
    }

    /// The same with these ranges in place of those of memory: of multiples of 8, by ascending address.
    pub fn with_memory(self, memory: Vec<(u64, u64)>) -> Roots
        requires { AreRanges memory.items }
        ensures { result ≡ record self { memory = memory.items } }
    {
        Roots { memory, ..self }
    }

    /// The same root words, and whether malloc's links to free chunks are left out of what those in memory lead to.
    pub fn skip_links(self, skip: bool) -> Roots
        ensures { result ≡ record self { skips_links = skip } }
    {
        Roots {
            skips_links: skip,
            ..self
        }
    }

    /// Whether malloc's links to free chunks are left out of what the root words in memory lead to.
    pub fn skips_links(&self) -> bool
        ensures { result ≡ self.now.skips_links }
    {
        self.skips_links
    }

    /// Cuts the root words into pieces of at most `words` words. It is for libraries and tests: the program goes by
    /// [`Roots::pieces`].
    pub fn cut(&self, alloc: Global, words: usize) -> Result<Vec<Piece>, CutError>
        ensures zero { (result ≡ Err CutError.Zero) ↔ (words ≡ 0) }
        ensures ok { IfOk result (λ pieces. AreCut self.now words pieces.items) }
    {
        if words == 0 {
            return Err(CutError::Zero);
        }
        let mut pieces = Vec::new(alloc);
        push_registers(&mut pieces, self.registers(), words)?;
        for range in &self.memory {
            push_memory(&mut pieces, *range, words)?;
        }
        Ok(pieces)
    }

    /// The pieces of the root words, each of at most `words` words, given by their numbers: no list of them is made.
    pub fn pieces(&self, alloc: Global, words: usize) -> Result<Pieces<'_>, CutError>
        ensures zero { (result ≡ Err CutError.Zero) ↔ (words ≡ 0) }
        ensures value { IfOk result (λ pieces. pieces ≡ pieces_of words self.now) }
        ensures cut { IfOk result (AreCut self.now words) }
    {
        Pieces::new(alloc, self, words)
    }
}
