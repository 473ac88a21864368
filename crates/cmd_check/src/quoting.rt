//! Paths between quotes.
ghost use Rattle.std.specs.Prelude.{◌<◌, ◌≤◌, length, take};
ghost use Rattle.std.specs.List.{flat_map};
ghost use Rattle.cmd_model.specs.RuleLine.{quoted_byte, quoted_path};
ghost use Rattle.cmd_check.specs.Handed.{Adds};

use crate::pending::{Pending, put};
use cmd_model::{plain_front, quoted_byte};
use dg_model::Path;
use fx_io::Sink;

/// Puts a path between quotes, with what would break a line escaped.
pub fn put_path<K: Sink>(out: &mut K, pending: &mut Pending, path: &Path)
    ensures { Adds K.taken K.faults out.old pending.old out.new pending.new
        (quoted_path path.now) }
{
    put(out, pending, b"\"");
    put_names(out, pending, path);
    put(out, pending, b"\"");
}

/// Puts the names of a path, those of the Systems around first.
fn put_names<K: Sink>(out: &mut K, pending: &mut Pending, path: &Path)
    ensures { Adds K.taken K.faults out.old pending.old out.new pending.new
        (flat_map quoted_byte path.now) }
{
    let (around, name) = path.split();
    let Some(around) = around else {
        put_name(out, pending, name);
        return;
    };
    put_names(out, pending, around);
    put(out, pending, b"/");
    put_name(out, pending, name);
}

/// Puts a name.
fn put_name<K: Sink>(out: &mut K, pending: &mut Pending, name: &[u8])
    ensures { Adds K.taken K.faults out.old pending.old out.new pending.new
        (flat_map quoted_byte name.now) }
{
    let mut done = 0;
    while done < name.len() {
        done += put_front(out, pending, &name[done..]);
    }
}

/// Puts the bytes of a name that stand as they are, up to one that doesn't, or that one alone; and
/// tells how many.
fn put_front<K: Sink>(out: &mut K, pending: &mut Pending, name: &[u8]) -> usize
    requires { 0 < length name.now }
    ensures some { 0 < result }
    ensures within { result ≤ length name.now }
    ensures adds { Adds K.taken K.faults out.old pending.old out.new pending.new
        (flat_map quoted_byte (take result name.now)) }
{
    let plain = plain_front(name);
    if plain > 0 {
        put(out, pending, &name[..plain]);
        plain
    } else {
        let (bytes, count) = quoted_byte(name[0]);
        put(out, pending, &bytes[..count]);
        1
    }
}
