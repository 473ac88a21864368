//! The one written text of a design.
ghost use Rattle.std.specs.Prelude.{◌≡◌, ◌≢◌, ◌++◌, [], ℕ, List, IfOk, OnOk, codes, flat_map, map};
ghost use Rattle.vl_ast.specs.Spelling.{joined, spelling};
ghost use Rattle.vl_read.specs.Designs.{SpellsDesign};
ghost use Rattle.vl_hier.specs.Written.{IsDesignSpelling, instance_text, link_text, open_spelling};
ghost use Rattle.vl_hier.specs.inner.Written.{next_link};

use crate::laws::design_spelling_spells;
use fx_io::{OpenGate, OutOfMemory, Text};
use fx_text::push;
use std::alloc::Global;
use std::thread::Threads;
use vl_ast::{Instance, Link, Module};
use vl_read::Design;

/// The last line of a module.
const LAST_LINE: &[u8] = b"endmodule\n";

fn put_link(out: &mut Vec<u8>, link: &Link) -> Result<(), OutOfMemory>
    ensures { OnOk result (out.new.items ≡ out.old.items ++ link_text link.now) }
{
    push(out, b".")?;
    push(out, link.port.bytes())?;
    push(out, b"(")?;
    push(out, link.net.bytes())?;
    push(out, b")")?;
    Ok(())
}

fn put_next_link(out: &mut Vec<u8>, link: &Link) -> Result<(), OutOfMemory>
    ensures { OnOk result (out.new.items ≡ out.old.items ++ next_link link.now) }
{
    push(out, b", ")?;
    put_link(out, link)?;
    Ok(())
}

fn put_further_links(out: &mut Vec<u8>, links: &[Link]) -> Result<(), OutOfMemory>
    ensures { OnOk result (out.new.items ≡ out.old.items ++ flat_map next_link links.now) }
{
    for link in links {
        put_next_link(out, link)?;
    }
    Ok(())
}

fn put_links(out: &mut Vec<u8>, links: &[Link]) -> Result<(), OutOfMemory>
    ensures { OnOk result (out.new.items
        ≡ out.old.items ++ joined (codes ", ") (map link_text links.now)) }
{
    let Some((first, further)) = links.split_first() else {
        return Ok(());
    };
    put_link(out, first)?;
    put_further_links(out, further)?;
    Ok(())
}

fn put_instance(out: &mut Vec<u8>, one: &Instance) -> Result<(), OutOfMemory>
    ensures { OnOk result (out.new.items ≡ out.old.items ++ instance_text one.now) }
{
    push(out, one.of.bytes())?;
    push(out, b" ")?;
    push(out, one.name.bytes())?;
    push(out, b" (")?;
    put_links(out, one.links.as_slice())?;
    push(out, b");\n")?;
    Ok(())
}

fn put_instances(out: &mut Vec<u8>, instances: &[Instance]) -> Result<(), OutOfMemory>
    ensures { OnOk result (out.new.items ≡ out.old.items ++ flat_map instance_text instances.now) }
{
    for one in instances {
        put_instance(out, one)?;
    }
    Ok(())
}

fn put_module<R: Threads + Sync>(
    rt: &R,
    alloc: Global,
    out: &mut Vec<u8>,
    one: &Module,
) -> Result<(), OutOfMemory>
    ensures { OnOk result (out.new.items ≡ out.old.items ++ spelling one.now) }
{
    let text = vl_write::write(rt, alloc, one, &OpenGate)?;
    push(out, text.bytes())?;
    Ok(())
}

fn put_modules<R: Threads + Sync>(
    rt: &R,
    alloc: Global,
    out: &mut Vec<u8>,
    modules: &[Module],
) -> Result<(), OutOfMemory>
    ensures { OnOk result (out.new.items ≡ out.old.items ++ flat_map spelling modules.now) }
{
    for one in modules {
        put_module(rt, alloc, out, one)?;
    }
    Ok(())
}

/// Puts a module without its last line.
fn put_open<R: Threads + Sync>(
    rt: &R,
    alloc: Global,
    out: &mut Vec<u8>,
    top: &Module,
) -> Result<(), OutOfMemory>
    ensures { OnOk result (out.new.items ≡ out.old.items ++ open_spelling top.now) }
{
    let text = vl_write::write(rt, alloc, top, &OpenGate)?;
    let bytes = text.bytes();
    let (open, _) = bytes.split_at(bytes.len().saturating_sub(LAST_LINE.len()));
    push(out, open)?;
    Ok(())
}

/// The written text of a design: its modules in order, and last the top, whose instances stand behind
/// its items, each on a line of its own. Its time is linear in the text. The text spells the design,
/// where some text does. The only error is want of memory.
pub fn write<R: Threads + Sync>(rt: &R, alloc: Global, design: &Design) -> Result<Text, OutOfMemory>
    // There is a top, as in each design that some text spells.
    requires { design.now.modules ≢ [] }
    ensures text { IfOk result (IsDesignSpelling design.now) }
    ensures spells { (bytes : List ℕ) → SpellsDesign bytes design.now
        → IfOk result (λ text. SpellsDesign text design.now) }
{
    design_spelling_spells();
    let Some((top, below)) = design.modules.as_slice().split_last() else {
        unreachable!()
    };
    let mut out = Vec::new(alloc);
    put_modules(rt, alloc, &mut out, below)?;
    put_open(rt, alloc, &mut out, top)?;
    put_instances(&mut out, design.instances.as_slice())?;
    push(&mut out, LAST_LINE)?;
    Text::from_vec(alloc, out)
}
