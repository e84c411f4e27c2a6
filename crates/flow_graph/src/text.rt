//! The lines of a flow graph's text.

ghost use Rattle.std.specs.Prelude.{◌≡◌, ◌≢◌, [], ◌∷◌, ◌++◌, map, decimal, OnOk};
ghost use Rattle.std.specs.List.{join_with_byte};
ghost use Rattle.model_run.specs.GraphText.{escaped, escaped_byte, node_text, node_line, parents_text};
ghost use Rattle.model_run.specs.declared.flow.NodeKind.TheVariants.{Body as BodyNode};

use itoa::Buffer;
use model_run::{FlowNode, NodeKind};
use model_text::Text;
use std::alloc::AllocError;

/// Puts the line of a node behind a text. `AllocError` where the memory was refused.
pub(crate) fn put_line(text: &mut Text, node: &FlowNode) -> Result<(), AllocError>
    ensures { OnOk result (text.new ≡ text.old ++ node_line node.now) }
{
    put_number(text, node.id)?;
    text.push(b' ')?;
    put_meaning(text, node)?;
    put_parents(text, node)?;
    text.push(b'\n')
}

/// What a node is, with its name or the node whose end it is.
fn put_meaning(text: &mut Text, node: &FlowNode) -> Result<(), AllocError>
    ensures { OnOk result (text.new ≡ text.old ++ node_text node.now.kind node.now.name node.now.start) }
{
    match node.kind {
        NodeKind::Start => text.append(b"start"),
        NodeKind::Atom => put_both(text, b"atom ", node.name.as_slice()),
        NodeKind::Block => put_both(text, b"block ", node.name.as_slice()),
        NodeKind::Body => put_body(text, node.name.as_slice()),
        NodeKind::EndBody => put_end(text, b"end-body of ", node.start),
        NodeKind::EndBlock => put_end(text, b"end-block of ", node.start),
        NodeKind::End => text.append(b"end"),
    }
}

fn put_both(text: &mut Text, word: &[u8], name: &[u8]) -> Result<(), AllocError>
    ensures { OnOk result (text.new ≡ text.old ++ (word.now ++ name.now)) }
{
    text.append(word)?;
    text.append(name)
}

fn put_end(text: &mut Text, word: &[u8], start: u32) -> Result<(), AllocError>
    ensures { OnOk result (text.new ≡ text.old ++ (word.now ++ decimal start)) }
{
    text.append(word)?;
    put_number(text, start)
}

/// A body with its label, where it has one.
fn put_body(text: &mut Text, label: &[u8]) -> Result<(), AllocError>
    ensures { OnOk result (text.new ≡ text.old ++ node_text BodyNode label.now 0) }
{
    text.append(b"body")?;
    if label.is_empty() {
        return Ok(());
    }
    text.push(b' ')?;
    put_escaped(text, label)
}

/// A label, in which a backslash, a newline and a carriage return stand as two characters.
fn put_escaped(text: &mut Text, label: &[u8]) -> Result<(), AllocError>
    ensures { OnOk result (text.new ≡ text.old ++ escaped label.now) }
{
    for byte in label {
        put_escaped_byte(text, *byte)?;
    }
    Ok(())
}

fn put_escaped_byte(text: &mut Text, byte: u8) -> Result<(), AllocError>
    ensures { OnOk result (text.new ≡ text.old ++ escaped_byte byte) }
{
    match byte {
        b'\\' => text.append(b"\\\\"),
        b'\n' => text.append(b"\\n"),
        b'\r' => text.append(b"\\r"),
        _ => text.push(byte),
    }
}

/// An arrow and the numbers of the parents, with blanks between; nothing for the start.
fn put_parents(text: &mut Text, node: &FlowNode) -> Result<(), AllocError>
    ensures { OnOk result (text.new ≡ text.old ++ parents_text node.now.kind node.now.parents) }
{
    if node.kind == NodeKind::Start {
        return Ok(());
    }
    text.append(b" <- ")?;
    put_numbers(text, node.parents.as_slice())
}

/// Numbers with blanks between.
fn put_numbers(text: &mut Text, numbers: &[u32]) -> Result<(), AllocError>
    ensures { OnOk result (text.new ≡ text.old ++ join_with_byte 32 (map decimal numbers.now)) }
{
    let Some((first, others)) = numbers.split_first() else {
        return Ok(());
    };
    put_number(text, *first)?;
    for number in others {
        text.push(b' ')?;
        put_number(text, *number)?;
    }
    Ok(())
}

/// A number in decimal.
fn put_number(text: &mut Text, number: u32) -> Result<(), AllocError>
    ensures { OnOk result (text.new ≡ text.old ++ decimal number) }
{
    let mut buffer = Buffer::new();
    text.append(buffer.format(number).as_bytes())
}
