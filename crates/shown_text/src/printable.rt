//! Texts as they are shown on a terminal, which gets no control characters by them (own profile).
ghost use Rattle.std.specs.Prelude.{◌≡◌, ◌++◌, IfOk, OnOk, string_bytes};
ghost use Rattle.shown_text.specs.Printable as spec;

use cosem_data::memory::Memory;
use std::alloc::Global;
use value_text::digits::hex_digit;

/// Puts a byte behind a text: as it is where it is a printable character of ASCII, and else as `\xHH`. The error is that
/// memory was refused.
fn push_byte(byte: u8, text: &mut String) -> Result<(), Memory>
    ensures { OnOk result (string_bytes text.new ≡ string_bytes text.old ++ spec.shown_byte byte) }
{
    if 32 <= byte && byte <= 126 {
        text.push(byte as char)?;
    } else {
        text.push_str("\\x")?;
        text.push(hex_digit(byte / 16) as char)?;
        text.push(hex_digit(byte % 16) as char)?;
    }
    Ok(())
}

/// Puts a byte behind a text that stands between quotation marks. The error is that memory was refused.
fn push_quoted_byte(byte: u8, text: &mut String) -> Result<(), Memory>
    ensures { OnOk result (string_bytes text.new ≡ string_bytes text.old ++ spec.quoted_byte byte) }
{
    if byte == b'"' || byte == b'\\' {
        text.push('\\')?;
        text.push(byte as char)?;
        Ok(())
    } else {
        push_byte(byte, text)
    }
}

/// Puts what is shown of bytes behind a text: each byte that is no printable character of ASCII as `\xHH`. The error is
/// that memory was refused.
pub fn push_printable(shown: &[u8], text: &mut String) -> Result<(), Memory>
    ensures { OnOk result (string_bytes text.new ≡ string_bytes text.old ++ spec.printable shown.now) }
{
    for byte in shown {
        push_byte(*byte, text)?;
    }
    Ok(())
}

/// What is shown of a text: each byte that is no printable character of ASCII as `\xHH`. The error is that memory was refused.
pub fn printable_text(alloc: Global, shown: &str) -> Result<String, Memory>
    ensures { IfOk result (λ text. string_bytes text ≡ spec.printable shown.now) }
{
    let mut text = String::new(alloc);
    push_printable(shown.as_bytes(), &mut text)?;
    Ok(text)
}

/// What is shown of a text between quotation marks, as TOML writes it but for bytes outside ASCII, each of which is `\xHH`.
/// The error is that memory was refused.
pub fn quoted_text(alloc: Global, shown: &str) -> Result<String, Memory>
    ensures { IfOk result (λ text. string_bytes text ≡ spec.quoted shown.now) }
{
    let mut text = String::from_str(alloc, "\"")?;
    for byte in shown.as_bytes() {
        push_quoted_byte(*byte, &mut text)?;
    }
    text.push('"')?;
    Ok(text)
}
