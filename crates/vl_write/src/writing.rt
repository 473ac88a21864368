ghost use Rattle.std.specs.Prelude.{◌≡◌, ◌++◌, IfOk, OnOk, List, codes, flat_map, ℕ};
ghost use Rattle.vl_ast.specs.Grammar.{Spells};
ghost use Rattle.vl_ast.specs.Spelling.{item_text, spelling};

use crate::attributes::put_attrs;
use crate::lists::put_list;
use crate::parts::{Writer, finish, put};
use crate::pieces::with_items;
use fx_io::{Gate, OutOfMemory, Text};
use fx_text::push;
use std::alloc::Global;
use std::thread::Threads;
use vl_ast::{Module, spelling_spells};

/// The text of a module up to its items.
fn header_text(alloc: Global, module: &Module) -> Result<Vec<u8>, OutOfMemory>
    ensures { IfOk result (λ text. spelling «module».now
        ≡ text.items ++ flat_map item_text «module».now.items ++ codes "endmodule\n") }
{
    let mut out = Writer {
        text: Vec::new(alloc),
        wanting: false,
    };
    put_attrs(&mut out, b"", module.attrs.as_slice());
    put(&mut out, b"module ");
    put(&mut out, module.name.bytes());
    put(&mut out, b" (\n");
    put_list(&mut out, module.ports.as_slice(), b",\n");
    put(&mut out, b"\n);\n");
    finish(out)
}

/// Puts the last line of a module at the end of the last part.
fn put_end(alloc: Global, parts: &mut Vec<Vec<u8>>) -> Result<(), OutOfMemory>
    ensures { OnOk result (flat_map (λ part. part.items) parts.new.items
        ≡ flat_map (λ part. part.items) parts.old.items ++ codes "endmodule\n") }
{
    let mut last = match parts.pop() {
        Some(last) => last,
        None => Vec::new(alloc),
    };
    push(&mut last, b"endmodule\n")?;
    parts.push(last)?;
    Ok(())
}

/// The written text of a module in parts, to be put one after another, which takes no copy: single
/// spaces between tokens, numbers without leading zeros and in base ten, each port, item and list of
/// attributes on a line of its own (own). Its time is linear in the text. The text spells the module,
/// where some text does. Of many items the workers of `rt` spell a part each; of few, or by one
/// processor, there is one part. The worker of an item passes `gate` before it, by the item's number
/// from 0; the text is the same whatever they do. The only error is want of memory.
pub fn spelling_parts<R: Threads + Sync, G: Gate + Sync>(
    rt: &R,
    alloc: Global,
    module: &Module,
    gate: &G,
) -> Result<Vec<Vec<u8>>, OutOfMemory>
    ensures text { IfOk result (λ parts. flat_map (λ part. part.items) parts.items
        ≡ spelling «module».now) }
    ensures spells { (bytes : List ℕ) → Spells bytes «module».now
        → IfOk result (λ parts. Spells (flat_map (λ part. part.items) parts.items) «module».now) }
{
    spelling_spells();
    let text = header_text(alloc, module)?;
    let mut parts = with_items(rt, alloc, text, module.items.as_slice(), gate)?;
    put_end(alloc, &mut parts)?;
    Ok(parts)
}

/// The parts as one text. The first part is taken over as it is, and each other one freed once it is
/// copied.
fn whole_text(alloc: Global, parts: Vec<Vec<u8>>) -> Result<Vec<u8>, OutOfMemory>
    ensures { IfOk result (λ text. text.items ≡ flat_map (λ part. part.items) parts.items) }
{
    let mut left = parts.into_iter();
    let Some(mut text) = left.next() else {
        return Ok(Vec::new(alloc));
    };
    while let Some(part) = left.next() {
        push(&mut text, part.as_slice())?;
    }
    Ok(text)
}

/// The parts that `spelling_parts` gives, as one text. It is for whom parts don't serve: joining long parts
/// takes as long as spelling them. The only error is want of memory.
pub fn write<R: Threads + Sync, G: Gate + Sync>(
    rt: &R,
    alloc: Global,
    module: &Module,
    gate: &G,
) -> Result<Text, OutOfMemory>
    ensures text { IfOk result (λ text. text ≡ spelling «module».now) }
    ensures spells { (bytes : List ℕ) → Spells bytes «module».now
        → IfOk result (λ text. Spells text «module».now) }
{
    let parts = spelling_parts(rt, alloc, module, gate)?;
    Text::from_vec(alloc, whole_text(alloc, parts)?)
}
