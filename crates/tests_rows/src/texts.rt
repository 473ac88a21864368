//! Named texts, and rows over them.

use crate::escapes::part_bytes;
use crate::row::Row;
use anyhow::{Error, Result};
use std::alloc::Global;

/// A text by its name.
#[derive(Drop)]
struct Named {
    name: String,
    text: String,
}

/// The texts that stood before a row.
#[derive(Drop)]
pub struct Texts {
    texts: Vec<Named>,
    open: bool,
}

impl Texts {
    pub fn new(alloc: Global) -> Texts {
        Texts {
            texts: Vec::new(alloc),
            open: false,
        }
    }

    /// Takes a line that begins, continues or ends a text; false of a row.
    pub fn take(&mut self, alloc: Global, line: &str) -> Result<bool> {
        if self.open {
            self.open = line != "end";
            if self.open {
                self.put(line)?;
            }
            return Ok(true);
        }
        let Some(name) = line.strip_prefix("text ") else {
            return Ok(false);
        };
        self.begin(alloc, name)?;
        Ok(true)
    }

    /// Begins the text of this name.
    fn begin(&mut self, alloc: Global, name: &str) -> Result<()> {
        let name = String::from_str(alloc, name)?;
        let text = String::new(alloc);
        self.texts.push(Named { name, text })?;
        self.open = true;
        Ok(())
    }

    /// Puts a line at the end of the last text.
    fn put(&mut self, line: &str) -> Result<()> {
        if let Some(last) = self.texts.last_mut() {
            last.text.push_str(line)?;
            last.text.push('\n')?;
        }
        Ok(())
    }

    /// The text of a name.
    pub fn named_text(&self, name: &str) -> Result<&str> {
        for one in self.texts.iter() {
            if one.name.as_str() == name {
                return Ok(one.text.as_str());
            }
        }
        Err(Error::msg("no text of this name"))
    }

    /// The row of a line.
    pub fn row<'a>(&self, alloc: Global, line: &'a str) -> Result<Row<'a>> {
        let parts: Vec<&'a str> = line.split('`').collect(alloc)?;
        match parts.split_first() {
            Some((front, behind)) => self.row_of(alloc, front, behind),
            None => Err(Error::msg("no row")),
        }
    }

    /// The row of the words in front of these parts.
    fn row_of<'a>(&self, alloc: Global, front: &'a str, parts: &[&str]) -> Result<Row<'a>> {
        let mut row = Row::of(alloc, front)?;
        self.fill(alloc, &mut row, parts)?;
        Ok(row)
    }

    fn fill(&self, alloc: Global, row: &mut Row<'_>, parts: &[&str]) -> Result<()> {
        row.command = row.next()?;
        let name = row.next()?;
        row.text = self.text_of(alloc, name, parts)?;
        Ok(())
    }

    /// The text of a name with these parts.
    fn text_of(&self, alloc: Global, name: &str, parts: &[&str]) -> Result<Vec<u8>> {
        if name != "=" {
            let mut text = String::from_str(alloc, self.named_text(name)?)?;
            exchange(alloc, &mut text, parts)?;
            return Ok(text.into_bytes());
        }
        match parts.first() {
            Some(part) => part_bytes(alloc, part),
            None => Ok(Vec::new(alloc)),
        }
    }
}

/// Exchanges the first of these parts for the second, the third for the fourth, and so on.
fn exchange(alloc: Global, text: &mut String, parts: &[&str]) -> Result<()> {
    if parts.len() % 2 == 1 {
        return Err(Error::msg("a part lacks its other"));
    }
    for pair in 0..parts.len() / 2 {
        *text = text_with_part(alloc, text.as_str(), parts[2 * pair], parts[2 * pair + 1])?;
    }
    Ok(())
}

/// The text with the first of one part as another.
fn text_with_part(alloc: Global, text: &str, old: &str, new: &str) -> Result<String> {
    let old = part_of(alloc, old)?;
    let new = part_of(alloc, new)?;
    replacement_text(alloc, text, old.as_str(), new.as_str())
}

fn part_of(alloc: Global, part: &str) -> Result<String> {
    Ok(String::from_utf8(part_bytes(alloc, part)?)?)
}

fn replacement_text(alloc: Global, text: &str, old: &str, new: &str) -> Result<String> {
    match text.split_once(old) {
        Some((before, after)) => Ok(format!(in alloc; "{before}{new}{after}")?),
        None => Err(Error::msg("the text lacks a part")),
    }
}
