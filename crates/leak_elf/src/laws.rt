//! Laws of the definitions that contracts cite. The functions do nothing: their contracts are the laws.

ghost use Rattle.leak_elf.specs.Plain.{FaultsArePlain, WordsArePlain};

/// The reason against a file is the first of all faults that hold, each by itself.
pub fn faults_are_plain()
    ensures { FaultsArePlain }
{}

/// A word of an accepted file is the one that a PT_LOAD header holds, whatever the order of segments.
pub fn words_are_plain()
    ensures { WordsArePlain }
{}
