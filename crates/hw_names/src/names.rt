//! The names of ports.
ghost use Rattle.std.specs.Prelude.{◌≡◌, ◌++◌, ◌∷◌, ◌↔◌, ℕ, List, false, map, Contains, IsTrue, IfOk, OnOk, decimal, ◌+◌, ◌<◌, ◌^◌};
ghost use Rattle.hw_names.specs.Names.{plain_byte as plain_byte_of, undoubled, element_name as element_name_of, port_name as port_name_of, numbered as numbered_of, own_names, handshake_names, IsGiven};
ghost use Rattle.hw_names.specs.Taken.{AreTaken, AreTried};

use fx_io::{OutOfMemory, Text};
use itoa::Buffer;
use std::alloc::Global;
use std::collections::{BTreeMap, BTreeSet};
use vl_names::is_identifier;

/// Puts a number in base ten behind the bytes.
pub fn put_number(bytes: &mut Vec<u8>, number: u32) -> Result<(), OutOfMemory>
    ensures { OnOk result (bytes.new.items ≡ bytes.old.items ++ decimal number) }
{
    let mut digits = Buffer::new();
    bytes.extend_from_slice(digits.format(number).as_bytes())?;
    Ok(())
}

/// A byte that a name can have.
fn plain_byte(byte: u8) -> u8
    ensures { result ≡ plain_byte_of byte }
{
    if byte.is_ascii_alphanumeric() || byte == b'_' {
        byte
    } else {
        b'_'
    }
}

/// The name of a block by its path, in which a `/` stands twice, of bytes that a name can have.
fn plain_name(alloc: Global, path: &[u8]) -> Result<Vec<u8>, OutOfMemory>
    ensures { IfOk result (λ name. name.items ≡ map plain_byte_of (undoubled false path.now)) }
{
    let mut name = Vec::new(alloc);
    let mut is_second = false;
    for byte in path {
        if *byte == b'/' && !is_second {
            is_second = true;
        } else {
            is_second = false;
            name.push(plain_byte(*byte))?;
        }
    }
    Ok(name)
}

/// The name of an element of a signal of this width.
fn element_name(
    alloc: Global,
    path: &[u8],
    width: u32,
    element: u32,
) -> Result<Vec<u8>, OutOfMemory>
    ensures { IfOk result (λ name.
        name.items ≡ element_name_of (undoubled false path.now) width element) }
{
    let mut name = plain_name(alloc, path)?;
    if width <= 1 {
        return Ok(name);
    }
    name.push(b'_')?;
    put_number(&mut name, element)?;
    Ok(name)
}

/// The name itself, with `p_` in front where it is none of a port.
fn port_name(alloc: Global, name: Vec<u8>) -> Result<Vec<u8>, OutOfMemory>
    ensures { IfOk result (λ named. named.items ≡ port_name_of name.items) }
{
    if is_identifier(name.as_slice()) && !name.as_slice().starts_with(b"fx_") {
        return Ok(name);
    }
    let mut other = Vec::from_slice(alloc, b"p_")?;
    other.extend_from_slice(name.as_slice())?;
    Ok(other)
}

/// A name with a number.
fn numbered_name(alloc: Global, name: &[u8], number: u32) -> Result<Vec<u8>, OutOfMemory>
    ensures { IfOk result (λ other. other.items ≡ numbered_of name.now number) }
{
    let mut other = Vec::from_slice(alloc, name)?;
    other.push(b'_')?;
    put_number(&mut other, number)?;
    port_name(alloc, other)
}

/// The names that are taken. Of a name that was wanted again, `numbers` has the least number that may
/// make it free, so that none is tried twice.
#[derive(Drop)]
pub struct Names {
    taken: BTreeSet<Vec<u8>>,
    numbers: BTreeMap<Vec<u8>, u32>,
}

impl Names {
    /// The names that every module has.
    pub fn new(alloc: Global) -> Result<Names, OutOfMemory>
        ensures { IfOk result (λ names. AreTaken names own_names) }
    {
        let mut names = Names {
            taken: BTreeSet::new(alloc),
            numbers: BTreeMap::new(alloc),
        };
        names.take_all(alloc, &[b"clk", b"reset", b"clk_enable", b"ce_out"])?;
        Ok(names)
    }

    /// The names that every module with valid and ready has.
    pub fn of_stream(alloc: Global) -> Result<Names, OutOfMemory>
        ensures { IfOk result (λ names. AreTaken names (handshake_names ++ own_names)) }
    {
        let mut names = Names::new(alloc)?;
        names.take_all(
            alloc,
            &[b"in_valid", b"out_ready", b"in_ready", b"out_valid"],
        )?;
        Ok(names)
    }

    /// Frees the names, so that crates above needn't prove how.
    pub fn discard(self) {
        drop(self);
    }

    /// Takes the names of these bytes, the last first.
    fn take_all(&mut self, alloc: Global, names: &[&[u8]]) -> Result<(), OutOfMemory>
        ensures { OnOk result ((list : List (List ℕ)) → AreTaken self.old list →
            AreTaken self.new (map (λ name. name.now) names.now ++ list)) }
    {
        let Some((name, others)) = names.split_first() else {
            return Ok(());
        };
        self.take_all(alloc, others)?;
        self.take(alloc, name)
    }

    /// Takes the name of these bytes.
    fn take(&mut self, alloc: Global, name: &[u8]) -> Result<(), OutOfMemory>
        ensures { OnOk result ((list : List (List ℕ)) → AreTaken self.old list →
            AreTaken self.new (name.now ∷ list)) }
    {
        let own = Vec::from_slice(alloc, name)?;
        let _ = self.taken.insert(own)?;
        Ok(())
    }

    /// Whether a name is taken.
    fn is_taken(&self, name: &Vec<u8>) -> bool
        ensures { (list : List (List ℕ)) → AreTaken self.now list →
            IsTrue result ↔ Contains list name.now.items }
    {
        self.taken.contains(name)
    }

    /// The number from which on one may make this name free.
    fn first_number(&self, name: &Vec<u8>) -> u32
        ensures { (list : List (List ℕ)) → AreTaken self.now list →
            AreTried list name.now.items result }
    {
        match self.numbers.get(name) {
            Some(number) => *number,
            None => 2,
        }
    }

    /// The name with the least number that makes it free, and that number.
    fn least_numbered(&self, alloc: Global, name: &Vec<u8>) -> Result<(Vec<u8>, u32), OutOfMemory>
        ensures name { IfOk result (λ pair. pair.0.items ≡ numbered_of name.now.items pair.1) }
        ensures small { IfOk result (λ pair. pair.1 + 1 < 2 ^ 32) }
        ensures free { IfOk result (λ pair. (list : List (List ℕ)) → AreTaken self.now list →
            ¬ Contains list (numbered_of name.now.items pair.1)) }
        ensures tried { IfOk result (λ pair. (list : List (List ℕ)) → AreTaken self.now list →
            AreTried list name.now.items pair.1) }
    {
        for number in self.first_number(name)..u32::MAX {
            let other = numbered_name(alloc, name.as_slice(), number)?;
            if !self.is_taken(&other) {
                return Ok((other, number));
            }
        }
        // word: the number behind a name, and one more, of 32 bits
        Err(OutOfMemory)
    }

    /// Takes a name, and gives it as a text.
    fn put(&mut self, alloc: Global, name: Vec<u8>) -> Result<Text, OutOfMemory>
        ensures text { IfOk result (λ text. text ≡ name.items) }
        ensures taken { OnOk result ((list : List (List ℕ)) → AreTaken self.old list →
            AreTaken self.new (name.items ∷ list)) }
    {
        self.take(alloc, name.as_slice())?;
        Text::from_vec(alloc, name)
    }

    /// Gives and takes a free name for a port that is to have this one.
    fn give(&mut self, alloc: Global, name: Vec<u8>) -> Result<Text, OutOfMemory>
        ensures { IfOk result (λ text. (list : List (List ℕ)) → AreTaken self.old list →
            IsGiven list name.items text × AreTaken self.new (text ∷ list)) }
    {
        if !self.is_taken(&name) {
            return self.put(alloc, name);
        }
        let (other, number) = self.least_numbered(alloc, &name)?;
        let text = self.put(alloc, other)?;
        let _ = self.numbers.insert(name, number + 1)?;
        Ok(text)
    }

    /// Gives and takes the name of the port of an element of a root block of this path.
    pub fn port(
        &mut self,
        alloc: Global,
        path: &[u8],
        width: u32,
        element: u32,
    ) -> Result<Text, OutOfMemory>
        ensures { IfOk result (λ text. (list : List (List ℕ)) → AreTaken self.old list →
            IsGiven list (port_name_of (element_name_of (undoubled false path.now) width element))
            text × AreTaken self.new (text ∷ list)) }
    {
        let own = element_name(alloc, path, width, element)?;
        let name = port_name(alloc, own)?;
        self.give(alloc, name)
    }
}
