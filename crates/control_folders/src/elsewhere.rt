//! The script that starts a task elsewhere.

ghost use Rattle.std.specs.Prelude.{◌≡◌, ◌++◌, IfOk, OnOk, Contains, string_bytes};
ghost use Rattle.std.specs.List.{flat_map, list_all};
ghost use Rattle.control_folders.specs.ShellText.{shell_text};
ghost use Rattle.control_folders.specs.TaskScript.{task_script, begins, exports, export_line, ends, quoted, quoted_byte, is_variable_name, begins_name, goes_on_in_name};

use crate::control::ControlFolder;
use crate::shell::{Place, shell_text};
use std::alloc::{AllocError, Global};
use std::io;
use std::io::ErrorKind;
use task_host::{Order, Pair, Text};

/// The script that does everything a local start of the order's task does, on whatever machine it is run: it makes the step's
/// folder where that is missing, sets the step's variables, and becomes the task's shell.
///
/// A variable whose name is none to the shell is passed over, as a shell passes over one of its environment.
///
/// # Errors
///
/// Where the folder, a path or a variable has a zero byte, which no word of a shell can have; and where there is no memory.
pub fn task_script(alloc: Global, order: &Order, control: &ControlFolder) -> io::Result<Text>
    ensures text { IfOk result (λ text. text ≡ task_script order.now (string_bytes control.now.path)) }
    ensures zero { IfOk result (λ text. ¬ Contains text 0) }
{
    let mut text = Text::new(alloc);
    put_beginning(&mut text, order.folder.as_slice())?;
    put_variables(&mut text, order.env.as_slice())?;
    put_end(alloc, &mut text, order, control)?;
    if text.as_slice().contains(&0) {
        return Err(io::Error::new(
            ErrorKind::InvalidInput,
            "a folder or a variable has a zero byte",
        ));
    }
    Ok(text)
}

// Finds the programs that the task's shell needs, and makes the step's folder.
fn put_beginning(text: &mut Text, folder: &[u8]) -> Result<(), AllocError>
    ensures { OnOk result (text.new ≡ text.old ++ begins folder.now) }
{
    text.append(b"#!/bin/sh\nset -- \"$(command -v mv)\" \"$(command -v sh)\"\n")?;
    put_word(text, b"mkdir -p ", folder)?;
    text.append(b"\n")
}

// Sets the step's variables, in their order.
fn put_variables(text: &mut Text, variables: &[Pair]) -> Result<(), AllocError>
    ensures { OnOk result (text.new ≡ text.old ++ flat_map exports variables.now) }
{
    for variable in variables {
        put_variable(text, variable)?;
    }
    Ok(())
}

// Sets one whose name the shell knows as a variable's.
fn put_variable(text: &mut Text, variable: &Pair) -> Result<(), AllocError>
    ensures { OnOk result (text.new ≡ text.old ++ exports variable.now) }
{
    if is_variable_name(variable.name.as_slice()) {
        put_export(text, variable)
    } else {
        Ok(())
    }
}

fn put_export(text: &mut Text, variable: &Pair) -> Result<(), AllocError>
    ensures { OnOk result (text.new ≡ text.old ++ export_line variable.now) }
{
    text.append(b"command export ")?;
    text.append(variable.name.as_slice())?;
    put_word(text, b"=", variable.value.as_slice())?;
    text.append(b"\n")
}

// Becomes the task's shell.
fn put_end(
    alloc: Global,
    text: &mut Text,
    order: &Order,
    control: &ControlFolder,
) -> Result<(), AllocError>
    ensures { OnOk result (text.new ≡ text.old ++ ends order.now (string_bytes control.now.path)) }
{
    let shell_text = shell_text(alloc, order, Place::Elsewhere)?;
    put_word(text, b"exec \"$2\" -c ", shell_text.as_bytes())?;
    put_word(text, b" ", control.path.as_bytes())?;
    put_word(text, b" \"$1\" \"$2\" ", order.folder.as_slice())?;
    text.append(b"\n")
}

// Puts some text, and behind it bytes as one word of the shell.
fn put_word(text: &mut Text, before: &[u8], word: &[u8]) -> Result<(), AllocError>
    ensures { OnOk result (text.new ≡ text.old ++ (before.now ++ quoted word.now)) }
{
    text.append(before)?;
    put_quoted(text, word)
}

// Puts bytes as one word of the shell.
fn put_quoted(text: &mut Text, bytes: &[u8]) -> Result<(), AllocError>
    ensures { OnOk result (text.new ≡ text.old ++ quoted bytes.now) }
{
    text.append(b"'")?;
    put_quoted_bytes(text, bytes)?;
    text.append(b"'")
}

fn put_quoted_bytes(text: &mut Text, bytes: &[u8]) -> Result<(), AllocError>
    ensures { OnOk result (text.new ≡ text.old ++ flat_map quoted_byte bytes.now) }
{
    for byte in bytes {
        put_quoted_byte(text, *byte)?;
    }
    Ok(())
}

fn put_quoted_byte(text: &mut Text, byte: u8) -> Result<(), AllocError>
    ensures { OnOk result (text.new ≡ text.old ++ quoted_byte byte) }
{
    match byte {
        b'\'' => text.append(b"'\\''"),
        _ => text.push(byte),
    }
}

// Whether the shell takes these bytes for the name of a variable.
fn is_variable_name(name: &[u8]) -> bool
    ensures { result ≡ is_variable_name name.now }
{
    match name.split_first() {
        Some((first, others)) => begins_name(*first) && go_on_in_name(others),
        None => false,
    }
}

fn go_on_in_name(bytes: &[u8]) -> bool
    ensures { result ≡ list_all goes_on_in_name bytes.now }
{
    bytes.iter().all(|byte| goes_on_in_name(*byte))
}

fn goes_on_in_name(byte: u8) -> bool
    ensures { result ≡ goes_on_in_name byte }
{
    begins_name(byte) || byte.is_ascii_digit()
}

fn begins_name(byte: u8) -> bool
    ensures { result ≡ begins_name byte }
{
    matches!(byte, b'a'..=b'z' | b'A'..=b'Z' | b'_')
}
