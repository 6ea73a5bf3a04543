//! Refusals and words of the sample core, worked out from the definitions by computing.
//!
//! Each row changes the sample in one way. The values were taken from the gABI's rules by hand. They
//! show that the definitions of leak_elf mean what they should.
//!
//! The rows, as the contract of a function that does nothing.

ghost use Rattle.leak_tests_reading.specs.ElfValues.{AreValues};

/// The worked values of the sample core.
pub fn sample_values()
    ensures { AreValues }
{}
