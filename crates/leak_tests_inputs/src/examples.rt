//! The log of the one block, and its reports.

/// The log of one block.
pub const ONE_BLOCK: &str = "@ ./a.out:[0x401136] + 0x10100 0x20\n";

/// The report of a log without a live block.
pub const NOTHING: &str = "blocks 0 bytes 0\n\
                           undumped 0\n\
                           unknown 0 displaced 0 torn 0\n\
                           marked 0 bytes 0\n\
                           leaked 0 bytes 0\n\
                           heads 0\n";

/// The report if the one block leaked.
pub const LOST: &str = "blocks 1 bytes 32\n\
                        undumped 0\n\
                        unknown 0 displaced 0 torn 0\n\
                        marked 0 bytes 0\n\
                        leaked 1 bytes 32\n\
                        heads 1\n\
                        caller 1 32 1 ./a.out:[0x401136]\n\
                        leak 0x10100 32 1 head ./a.out:[0x401136]\n";

/// The report if the one block is marked.
pub const HELD: &str = "blocks 1 bytes 32\n\
                        undumped 0\n\
                        unknown 0 displaced 0 torn 0\n\
                        marked 1 bytes 32\n\
                        leaked 0 bytes 0\n\
                        heads 0\n";
