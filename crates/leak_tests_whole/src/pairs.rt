//! The table of examples of two cores: cores, logs and the blocks that are claimed.

use crate::samples::Part;
use leak_tests_inputs::examples::ONE_BLOCK;

/// The log of two blocks.
const TWO_BLOCKS: &str = "+ 0x10100 0x20\n+ 0x10200 0x10\n";

/// The log of three blocks, of which the first two touch.
const THREE_BLOCKS: &str = "+ 0x10100 0x20\n+ 0x10120 0x10\n+ 0x10200 0x10\n";

/// The log of three blocks, and the second is given back.
const THREE_LESS_ONE: &str = "+ 0x10100 0x20\n+ 0x10120 0x10\n+ 0x10200 0x10\n- 0x10120\n";

/// Two cores of one process and their logs by name, and what is claimed in the later core.
#[derive(Clone, Copy)]
pub struct Pair {
    pub name: &'static str,
    /// What the earlier sample core has in place of zeros.
    pub core1: &'static [Part],
    pub log1: &'static str,
    /// What the later sample core has in place of zeros.
    pub core2: &'static [Part],
    pub log2: &'static str,
    /// The numbers of the blocks that are claimed in the later core, ascending.
    pub claimed: &'static [u32],
}

/// Each example of two cores except those of many blocks.
pub static PAIRS: [Pair; 16] = [
    Pair {
        name: "moved to where it was",
        core1: &[Part::Word(0x10100, 0x10200)],
        log1: TWO_BLOCKS,
        core2: &[Part::Word(0x10100, 0x10200), Part::Rbx(0x10100)],
        log2: "+ 0x10100 0x20\n+ 0x10200 0x10\n< 0x10100\n> 0x10100 0x20\n",
        claimed: &[1],
    },
    Pair {
        name: "kept",
        core1: &[Part::Word(0x10008, 0x10200), Part::Word(0x10200, 0x10120)],
        log1: THREE_BLOCKS,
        core2: &[Part::Word(0x10008, 0x10200), Part::Word(0x10200, 0x10120)],
        log2: THREE_LESS_ONE,
        claimed: &[],
    },
    Pair {
        name: "kept, and a word changed",
        core1: &[Part::Word(0x10008, 0x10200), Part::Word(0x10200, 0x10120)],
        log1: THREE_BLOCKS,
        core2: &[
            Part::Word(0x10008, 0x10200),
            Part::Word(0x10200, 0x10120),
            Part::Word(0x10ff8, 1),
        ],
        log2: THREE_LESS_ONE,
        claimed: &[],
    },
    Pair {
        name: "torn first log",
        core1: &[Part::Word(0x10008, 0x10100)],
        log1: "+ 0x10100 0x20\n+ 0x102",
        core2: &[Part::Word(0x10008, 0x10100)],
        log2: TWO_BLOCKS,
        claimed: &[],
    },
    Pair {
        name: "first log torn in another line",
        core1: &[Part::Word(0x10008, 0x10100)],
        log1: "+ 0x10100 0x20\n- 0x10100",
        core2: &[Part::Word(0x10008, 0x10100)],
        log2: TWO_BLOCKS,
        claimed: &[],
    },
    Pair {
        name: "first log without a complete line",
        core1: &[Part::Word(0x10008, 0x10100)],
        log1: "no line",
        core2: &[],
        log2: ONE_BLOCK,
        claimed: &[],
    },
    Pair {
        name: "moved elsewhere",
        core1: &[Part::Word(0x10008, 0x10100)],
        log1: ONE_BLOCK,
        core2: &[],
        log2: "@ ./a.out:[0x401136] + 0x10100 0x20\n< 0x10100\n> 0x10300 0x20\n",
        claimed: &[],
    },
    Pair {
        name: "kept block with another number",
        core1: &[Part::Word(0x10008, 0x10200)],
        log1: "+ 0x10200 0x10\n+ 0x10300 0x18\n",
        core2: &[],
        log2: "+ 0x10200 0x10\n+ 0x10300 0x18\n+ 0x10100 0x20\n",
        claimed: &[],
    },
    Pair {
        name: "held in the earlier core alone",
        core1: &[Part::Word(0x10008, 0x10100)],
        log1: ONE_BLOCK,
        core2: &[],
        log2: ONE_BLOCK,
        claimed: &[],
    },
    Pair {
        name: "held in the later core alone",
        core1: &[],
        log1: ONE_BLOCK,
        core2: &[Part::Word(0x10008, 0x10100)],
        log2: ONE_BLOCK,
        claimed: &[0],
    },
    Pair {
        name: "kept block that leads on in the later core",
        core1: &[Part::Word(0x10008, 0x10100)],
        log1: TWO_BLOCKS,
        core2: &[Part::Word(0x10008, 0x10100), Part::Word(0x10100, 0x10200)],
        log2: TWO_BLOCKS,
        claimed: &[1],
    },
    Pair {
        name: "kept block whose holder was given back",
        core1: &[Part::Word(0x10008, 0x10100), Part::Word(0x10100, 0x10200)],
        log1: TWO_BLOCKS,
        core2: &[],
        log2: "+ 0x10100 0x20\n+ 0x10200 0x10\n- 0x10100\n",
        claimed: &[],
    },
    Pair {
        name: "lost, held and new block",
        core1: &[Part::Word(0x10008, 0x10200)],
        log1: "@ a:[0x1] + 0x10100 0x20\n@ b:[0x2] + 0x10200 0x10\n",
        core2: &[Part::Word(0x10008, 0x10200)],
        log2: "@ a:[0x1] + 0x10100 0x20\n\
               @ b:[0x2] + 0x10200 0x10\n\
               @ c:[0x3] + 0x10300 0x18\n",
        claimed: &[],
    },
    Pair {
        name: "odd later log",
        core1: &[Part::Word(0x10008, 0x10100)],
        log1: "+ 0x10100 0x20\n",
        core2: &[Part::Dumped(0x800)],
        log2: "+ 0x10100 0x20\n\
               + 0x10110 0x20\n\
               - 0x10300\n\
               - 0x10118\n\
               - 0x10110",
        claimed: &[],
    },
    Pair {
        name: "earlier core half dumped",
        core1: &[Part::Dumped(0x800), Part::Word(0x10008, 0x10100)],
        log1: ONE_BLOCK,
        core2: &[Part::Word(0x10008, 0x10100)],
        log2: ONE_BLOCK,
        claimed: &[],
    },
    Pair {
        name: "later core half dumped",
        core1: &[Part::Word(0x10008, 0x10100)],
        log1: ONE_BLOCK,
        core2: &[Part::Dumped(0x800), Part::Word(0x10008, 0x10100)],
        log2: ONE_BLOCK,
        claimed: &[],
    },
];
