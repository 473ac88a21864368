//! A row, whose words are read in order.

use anyhow::{Error, Result};
use std::alloc::Global;

/// The words of a row behind its command and the name of its text, and that text.
#[derive(Drop)]
pub struct Row<'a> {
    pub command: &'a str,
    pub words: Vec<&'a str>,
    pub at: usize,
    pub text: Vec<u8>,
}

impl<'a> Row<'a> {
    /// The words of a line alone, of which none is read.
    pub fn of(alloc: Global, line: &'a str) -> Result<Row<'a>> {
        Ok(Row {
            command: "",
            words: line.split_whitespace().collect(alloc)?,
            at: 0,
            text: Vec::new(alloc),
        })
    }

    /// How many words are left.
    pub fn words_left(&self) -> usize {
        self.words.len().saturating_sub(self.at)
    }

    pub fn next(&mut self) -> Result<&'a str> {
        let word = match self.words.get(self.at) {
            Some(word) => *word,
            None => return Err(Error::msg("too few words")),
        };
        self.at = self.at.wrapping_add(1);
        Ok(word)
    }

    pub fn byte(&mut self) -> Result<u8> {
        Ok(self.next()?.parse::<u8>()?)
    }

    pub fn number(&mut self) -> Result<u32> {
        Ok(self.next()?.parse::<u32>()?)
    }

    pub fn long(&mut self) -> Result<u64> {
        Ok(self.next()?.parse::<u64>()?)
    }

    pub fn integer(&mut self) -> Result<i128> {
        Ok(self.next()?.parse::<i128>()?)
    }

    /// What the next word stands for in a table.
    pub fn one_of<T: Copy>(&mut self, table: &[(&str, T)]) -> Result<T> {
        table_value(self.next()?, table)
    }
}

/// What a word stands for in a table.
pub fn table_value<T: Copy>(word: &str, table: &[(&str, T)]) -> Result<T> {
    for entry in table {
        let (name, value) = *entry;
        if name == word {
            return Ok(value);
        }
    }
    Err(Error::msg("no such word"))
}
