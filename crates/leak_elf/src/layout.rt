//! Where the headers have their fields, and what the file header identifies itself with (System V gABI, elf(5)).
//!
//! Offsets and sizes are in bytes, each offset from the first byte of its header.

/// The first bytes of an ELF file (gABI, ELF Identification: EI_MAG0 to EI_MAG3).
pub(crate) const ELFMAG: &[u8] = b"\x7fELF";
/// The byte of the class (gABI, ELF Identification).
pub(crate) const EI_CLASS: usize = 4;
/// The byte of the data encoding (gABI, ELF Identification).
pub(crate) const EI_DATA: usize = 5;
/// The byte of the version (gABI, ELF Identification).
pub(crate) const EI_VERSION: usize = 6;

/// The class of 64-bit files (gABI, EI_CLASS).
pub(crate) const ELFCLASS64: u8 = 2;
/// The encoding of little-endian numbers (gABI, EI_DATA).
pub(crate) const ELFDATA2LSB: u8 = 1;
/// The only version (gABI, EI_VERSION).
pub(crate) const EV_CURRENT: u8 = 1;

/// The type of the file, of 16 bits (gABI, ELF Header).
pub(crate) const E_TYPE: usize = 16;
/// The machine, of 16 bits (gABI, ELF Header).
pub(crate) const E_MACHINE: usize = 18;
/// The file offset of the program headers, of 64 bits (gABI, ELF Header).
pub(crate) const E_PHOFF: usize = 32;
/// The file offset of the section headers, of 64 bits (gABI, ELF Header).
pub(crate) const E_SHOFF: usize = 40;
/// The size of a program header, of 16 bits (gABI, ELF Header).
pub(crate) const E_PHENTSIZE: usize = 54;
/// The number of program headers, of 16 bits (gABI, ELF Header).
pub(crate) const E_PHNUM: usize = 56;

/// The type of a segment, of 32 bits (gABI, Program Header).
pub(crate) const P_TYPE: usize = 0;
/// The flags of a segment, of 32 bits (gABI, Program Header).
pub(crate) const P_FLAGS: usize = 4;
/// The file offset of a segment's bytes, of 64 bits (gABI, Program Header).
pub(crate) const P_OFFSET: usize = 8;
/// The first address of a segment, of 64 bits (gABI, Program Header).
pub(crate) const P_VADDR: usize = 16;
/// The bytes that a segment has in the file, of 64 bits (gABI, Program Header).
pub(crate) const P_FILESZ: usize = 32;
/// The bytes that a segment has in memory, of 64 bits (gABI, Program Header).
pub(crate) const P_MEMSZ: usize = 40;

/// A section's additional number, of 32 bits (gABI, Section Header).
pub(crate) const SH_INFO: usize = 44;

/// The size of a file header (gABI, ELF Header: `e_ehsize`).
pub(crate) const FILE_HEADER_SIZE: usize = 64;
/// The size of a section header (gABI, Section Header: `e_shentsize`).
pub(crate) const SECTION_HEADER_SIZE: usize = 64;
/// The size of a program header (gABI, Program Header: `e_phentsize`).
pub(crate) const HEADER_SIZE: usize = 56;
