//! Attributes and ports as they are.
ghost use Rattle.std.specs.Prelude.{◌≡◌, IfOk};

use fx_io::{OutOfMemory, Text};
use std::alloc::Global;
use vl_ast::{Attr, Attrs, Port, Ports, begin, both, finish, put};

fn copied_attr(alloc: Global, attr: &Attr) -> Result<Attr, OutOfMemory>
    ensures { IfOk result (λ made. made ≡ attr.now) }
{
    let name = Text::copy(alloc, attr.name.bytes())?;
    let value = attr.value;
    Ok(Attr { name, value })
}

/// The same attributes. The only error is want of memory.
pub fn copied_attrs(alloc: Global, attrs: &[Attr]) -> Result<Attrs, OutOfMemory>
    ensures { IfOk result (λ made. made ≡ attrs.now) }
{
    let mut out = begin(alloc);
    for attr in attrs {
        put(&mut out, copied_attr(alloc, attr));
    }
    finish(out)
}

fn copied_port(alloc: Global, port: &Port) -> Result<Port, OutOfMemory>
    ensures { IfOk result (λ made. made ≡ port.now) }
{
    let own = Text::copy(alloc, port.name.bytes());
    let (name, attrs) = both(own, copied_attrs(alloc, port.attrs.as_slice()))?;
    let (input, signed, width) = (port.input, port.signed, port.width);
    Ok(Port {
        attrs,
        input,
        signed,
        width,
        name,
    })
}

/// The same ports. The only error is want of memory.
pub fn copied_ports(alloc: Global, ports: &[Port]) -> Result<Ports, OutOfMemory>
    ensures { IfOk result (λ made. made ≡ ports.now) }
{
    let mut out = begin(alloc);
    for port in ports {
        put(&mut out, copied_port(alloc, port));
    }
    finish(out)
}
