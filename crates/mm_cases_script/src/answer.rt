//! The answer to a line.

use crate::replies::{reply, reply_copy};
use crate::scripts::{behind, commands, drawn, group, script, script_hex};
use anyhow::{Result, bail};
use std::alloc::{AllocError, Global};

/// What one line of input is answered by.
pub fn answer(alloc: Global, line: &str) -> Result<String, AllocError> {
    if line.is_empty() || line.starts_with('#') {
        return String::from_str(alloc, line);
    }
    let (name, rest) = line.split_once(' ').unwrap_or((line, ""));
    match called(alloc, name, rest) {
        Ok(text) => Ok(text),
        Err(fault) => format!(in alloc; "{fault}"),
    }
}

/// What the operation of this name gives.
fn called(alloc: Global, name: &str, rest: &str) -> Result<String> {
    match name {
        "script" => script(alloc, rest),
        "commands" => commands(alloc, rest),
        "script_hex" => script_hex(alloc, rest),
        "behind" => behind(alloc, rest),
        "generate" => drawn(alloc, rest),
        "reply" => reply(alloc, rest),
        "reply_copy" => reply_copy(alloc, rest),
        "group" => group(alloc, rest),
        _ => bail!("no operation has this name"),
    }
}
