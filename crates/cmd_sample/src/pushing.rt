// Parts of texts, each put at the end.
ghost use Rattle.std.specs.Prelude.{◌≡◌, ◌++◌, OnOk};
ghost use Rattle.std.specs.List.{flat_map};
ghost use Rattle.cmd_sample.specs.ModelText.{line_text};

use fx_io::OutOfMemory;
use fx_text::push;
use itoa::Buffer;

/// Puts pieces, one after another.
pub fn push_each(text: &mut Vec<u8>, pieces: &[&[u8]]) -> Result<(), OutOfMemory>
    ensures { OnOk result (text.new.items
        ≡ text.old.items ++ flat_map (λ piece. piece.now) pieces.now) }
{
    let Some((piece, more)) = pieces.split_first() else {
        return Ok(());
    };
    push(text, piece)?;
    push_each(text, more)
}

/// Puts a line from output port 1 of a block to a port of another.
pub fn push_line(
    text: &mut Vec<u8>,
    source: &[u8],
    target: &[u8],
    port: u64,
) -> Result<(), OutOfMemory>
    ensures { OnOk result (text.new.items
        ≡ text.old.items ++ line_text source.now target.now port) }
{
    let mut digits = Buffer::new();
    push_each(
        text,
        &[
            b"    Line {\n",
            b"      SrcBlock \"",
            source,
            b"\"\n",
            b"      SrcPort 1\n",
            b"      DstBlock \"",
            target,
            b"\"\n",
            b"      DstPort ",
            digits.format(port).as_bytes(),
            b"\n",
            b"    }\n",
        ],
    )
}
