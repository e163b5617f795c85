//! The texts that are written for lines.
ghost use Rattle.std.specs.Prelude.{◌≡◌, ◌++◌, OnErr, OnOk};
ghost use Rattle.line_server.specs.Spelling.{reply_text, unreadable_text};

use crate::digits::put_digits;
use cosem_data::memory::Memory;
use std::alloc::Global;

/// Puts the line of the APDU of a reply behind the texts that are there: upper case hex and a newline. The error is that
/// memory was refused, and then the texts are as they were.
pub(crate) fn put_reply(reply: &[u8], texts: &mut Vec<u8>) -> Result<(), Memory>
    ensures ok { OnOk result (texts.new.items ≡ texts.old.items ++ reply_text reply.now) }
    ensures err { OnErr result (texts.new.items ≡ texts.old.items) }
{
    let start = texts.len();
    let Some(end) = start.checked_add(2 * reply.len()) else {
        return Err(Memory);
    };
    let Some(len) = end.checked_add(1) else {
        return Err(Memory);
    };
    texts.resize(len, b'\n')?;
    put_digits(reply, &mut texts[start..end]);
    Ok(())
}

/// Puts the line that tells the number of an unreadable line behind the texts that are there. The error is that memory was
/// refused, and then the texts are as they were.
pub(crate) fn put_unreadable(alloc: Global, number: u64, texts: &mut Vec<u8>) -> Result<(), Memory>
    ensures ok { OnOk result (texts.new.items ≡ texts.old.items ++ unreadable_text number) }
    ensures err { OnErr result (texts.new.items ≡ texts.old.items) }
{
    let text = format!(in alloc; "line {number}: unreadable\n")?;
    texts.extend_from_slice(text.as_bytes())?;
    Ok(())
}
