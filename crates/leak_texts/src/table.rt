//! The table of texts.
ghost use Rattle.std.specs.Prelude.{◌≡◌, ◌^◌, ◌<◌, [], length, IfOk, IsTrue, OnErr};
ghost use Rattle.leak_texts.specs.Texts.{IsNew, IsNumbered, StandAt};
ghost use Rattle.leak_texts.specs.Finding.{IsKeyOf};

use crate::key::{Key, write_key};
use crate::slot::slot_of;
use std::alloc::{AllocError, Global};
use std::collections::BTreeMap;
use std::marker::Model;

/// How many numbers are kept of texts that were met lately. Own rule: few programs allocate from more places by turns.
const RECENT: usize = 256;

/// Texts, each kept once, with numbers in the order in which they were first met. Contracts see the list of the texts.
#[derive(Drop)]
pub struct TextTable {
    alloc: Global,
    /// The texts, one after another. After an error there can be bytes that no text has.
    bytes: Vec<u8>,
    /// For each text its range of these bytes, with its end excluded.
    places: Vec<(usize, usize)>,
    /// The number of each text, by its key.
    ///
    /// Own rule: this isn't a hash map, since the texts of a hostile log could collide there and take quadratic time.
    numbers: BTreeMap<Key, u32>,
    /// The key that was looked for last, in memory that is used again.
    key: Key,
    /// Numbers of texts that were met lately, each in the slot of its text.
    recent: [u32; RECENT],
}

impl Model for TextTable {
    ghost use Rattle.std.specs.Prelude.{ℕ, List};
    ghost use Rattle.leak_texts.specs.Texts.{texts_at};
    ghost use Rattle.leak_texts.specs.Finding.{IsTable, number_in};

    ghost Value = { List (List ℕ) };

    ghost view = { λ t. texts_at t.bytes.items t.places.items };

    ghost invariant = { λ t. IsTable t.bytes.items t.places.items (number_in t.numbers) };
}

impl TextTable {
    /// No texts. It takes no memory.
    pub fn new(alloc: Global) -> TextTable
        ensures { result ≡ [] }
    {
        TextTable {
            alloc,
            bytes: Vec::new(alloc),
            places: Vec::new(alloc),
            numbers: BTreeMap::new(alloc),
            key: (0, Vec::new(alloc)),
            recent: [0; RECENT],
        }
    }

    /// How many texts there are.
    pub fn len(&self) -> usize
        ensures len { result ≡ length self.now }
        ensures few { result < 2 ^ 32 }
    {
        self.places.len()
    }

    /// The number of a text, which is the next one if the text is new. There are 2^32 - 1 numbers: one more text is
    /// answered as an allocation that fails.
    pub fn number(&mut self, text: &[u8]) -> Result<u32, AllocError>
        ensures ok { IfOk result (IsNumbered self.old text.now self.new) }
        ensures err { OnErr result (self.new ≡ self.old) }
    {
        let slot = slot_of(text);
        let lately = self.recent[slot];
        if self.has(lately, text) {
            return Ok(lately);
        }
        let number = self.find_or_add(text)?;
        self.recent[slot] = number;
        Ok(number)
    }

    /// The texts one after another, and for each its range of these bytes, with its end excluded.
    pub fn finish(self) -> (Vec<u8>, Vec<(usize, usize)>)
        ensures texts { StandAt result.0.items result.1.items self }
        ensures few { length self < 2 ^ 32 }
    {
        let TextTable {
            alloc: _,
            bytes,
            places,
            numbers: _,
            key: _,
            recent: _,
        } = self;
        (bytes, places)
    }

    /// Whether the number is that of the text.
    fn has(&self, number: u32, text: &[u8]) -> bool
        ensures { IsTrue result → IsNumbered self.now text.now self.now number }
    {
        match self.places.get(number as usize) {
            Some(&(start, end)) => &self.bytes[start..end] == text,
            None => false,
        }
    }

    /// The number of a text as [`TextTable::number`] gives it, without those that were met lately.
    fn find_or_add(&mut self, text: &[u8]) -> Result<u32, AllocError>
        ensures ok { IfOk result (IsNumbered self.old text.now self.new) }
        ensures err { OnErr result (self.new ≡ self.old) }
    {
        write_key(&mut self.key, text)?;
        if let Some(number) = self.numbers.get(&self.key) {
            return Ok(*number);
        }
        let bytes = Vec::from_slice(self.alloc, self.key.1.as_slice())?;
        let key = (self.key.0, bytes);
        self.add(key, text)
    }

    /// Adds a new text with its key, and gives its number.
    fn add(&mut self, key: Key, text: &[u8]) -> Result<u32, AllocError>
        requires is_key { IsKeyOf key text.now }
        requires new { IsNew self.old text.now }
        ensures ok { IfOk result (IsNumbered self.old text.now self.new) }
        ensures err { OnErr result (self.new ≡ self.old) }
    {
        if self.places.len() >= u32::MAX as usize {
            return Err(AllocError);
        }
        let number = self.places.len() as u32;
        let start = self.bytes.len();
        self.bytes.extend_from_slice(text)?;
        self.places.push((start, self.bytes.len()))?;
        match self.numbers.insert(key, number) {
            Ok(_) => Ok(number),
            Err(_) => {
                self.places.truncate(number as usize);
                Err(AllocError)
            }
        }
    }
}

#[cfg(test)]
mod tests {
    use super::TextTable;
    use std::test::*;

    #[test]
    fn a_text_keeps_its_first_number(rt: HostRuntime) -> Result<(), Fail> {
        let mut table = TextTable::new(rt.alloc());
        let given: [(&[u8], u32); 6] = [
            (b"./app:[0x11cb]", 0),
            (b"?", 1),
            (b"./app:[0x11d5]", 2),
            (b"./app:[0x11cb]", 0),
            (b"/app:[0x11cb]", 3),
            (b"?", 1),
        ];
        for (text, number) in given {
            assert_eq!(rt; table.number(text)?, number);
        }
        assert_eq!(rt; table.len(), 4);
        Ok(())
    }

    #[test]
    fn texts_of_one_slot_keep_their_numbers(rt: HostRuntime) -> Result<(), Fail> {
        let mut table = TextTable::new(rt.alloc());
        for _ in 0..2 {
            for i in 0..300u32 {
                assert_eq!(rt; table.number(&i.to_le_bytes())?, i);
            }
        }
        assert_eq!(rt; table.len(), 300);
        Ok(())
    }

    #[test]
    fn texts_stand_one_after_another(rt: HostRuntime) -> Result<(), Fail> {
        let mut table = TextTable::new(rt.alloc());
        table.number(b"a")?;
        table.number(b"bc")?;
        table.number(b"a")?;
        let (bytes, places) = table.finish();
        assert_eq!(rt; bytes.as_slice(), b"abc".as_slice());
        assert_eq!(rt; places.as_slice(), [(0, 1), (1, 3)].as_slice());
        Ok(())
    }
}
