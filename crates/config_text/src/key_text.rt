//! Keys as they stand in places, so that a terminal gets no control characters by them (own profile).

ghost use Rattle.std.specs.Prelude.{◌≡◌, ◌++◌, IfOk, OnOk, string_bytes};
ghost use Rattle.std.specs.Char.{is_control};
ghost use Rattle.std.specs.List.{list_all};
ghost use Rattle.config_text.specs.KeyText as spec;

use cosem_data::memory::Memory;
use std::alloc::Global;
use value_text::digits::hex_digit;

/// Whether a byte is a letter or digit of ASCII, `_` or `-`.
fn is_bare_byte(byte: u8) -> bool
    ensures { result ≡ spec.is_bare_byte byte }
{
    byte.is_ascii_alphanumeric() || byte == b'_' || byte == b'-'
}

/// Whether all bytes are letters and digits of ASCII, `_` and `-`.
fn are_bare(bytes: &[u8]) -> bool
    ensures { result ≡ list_all spec.is_bare_byte bytes.now }
{
    bytes.iter().all(|byte| is_bare_byte(*byte))
}

/// Whether TOML takes a key without quotation marks.
fn is_bare(key: &str) -> bool
    ensures { result ≡ spec.is_bare key.now }
{
    !key.is_empty() && are_bare(key.as_bytes())
}

/// Puts a character behind a text that stands between quotation marks. The error is that memory was refused.
fn push_quoted(c: char, text: &mut String) -> Result<(), Memory>
    ensures { OnOk result (string_bytes text.new ≡ string_bytes text.old ++ spec.quoted_char c) }
{
    if c.is_control() {
        let code = c as u8;
        text.push_str("\\u00")?;
        text.push(hex_digit(code / 16) as char)?;
        text.push(hex_digit(code % 16) as char)?;
    } else if c == '"' || c == '\\' {
        text.push('\\')?;
        text.push(c)?;
    } else {
        text.push(c)?;
    }
    Ok(())
}

/// A key between quotation marks, as TOML writes it. The error is that memory was refused.
fn quoted(alloc: Global, key: &str) -> Result<String, Memory>
    ensures { IfOk result (λ text. string_bytes text ≡ spec.quoted key.now) }
{
    let mut text = String::from_str(alloc, "\"")?;
    for c in key.chars() {
        push_quoted(c, &mut text)?;
    }
    text.push('"')?;
    Ok(text)
}

/// A key as TOML writes it: as it is where it is bare, and else between quotation marks, where each control character, `"` and
/// `\` stands behind a `\`. The error is that memory was refused.
pub fn key_text(alloc: Global, key: &str) -> Result<String, Memory>
    ensures { IfOk result (λ text. string_bytes text ≡ spec.key_text key.now) }
{
    if is_bare(key) {
        Ok(String::from_str(alloc, key)?)
    } else {
        quoted(alloc, key)
    }
}
