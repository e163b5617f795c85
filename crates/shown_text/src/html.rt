//! Texts in HTML (own profile).
use std::fmt;
use value_text::digits::hex_digit;

/// A text from outside as HTML shows it, between tags or in an attribute between quotation marks: characters of markup by their
/// names, and bytes that are no printable characters of ASCII as `\xHH`.
#[derive(Clone, Copy)]
pub struct Escaped<'a>(pub &'a str);

impl fmt::Display for Escaped<'_> {
    ghost use Rattle.std.specs.Prelude.{Some};
    ghost use Rattle.shown_text.specs.Html.{html_text};

    ghost output = { λ shown. Some (html_text shown.0.now) };

    fn fmt<W: fmt::Write>(&self, f: &mut fmt::Formatter<W>) -> fmt::Result {
        for byte in self.0.as_bytes() {
            write!(f, "{}", EscapedByte(*byte))?;
        }
        Ok(())
    }
}

/// A byte of such a text.
#[derive(Clone, Copy, Drop)]
struct EscapedByte(u8);

impl fmt::Display for EscapedByte {
    ghost use Rattle.std.specs.Prelude.{Some};
    ghost use Rattle.shown_text.specs.Html.{html_byte};

    ghost output = { λ byte. Some (html_byte byte.0) };

    fn fmt<W: fmt::Write>(&self, f: &mut fmt::Formatter<W>) -> fmt::Result {
        let byte = self.0;
        match byte {
            b'&' => f.write_str("&amp;"),
            b'<' => f.write_str("&lt;"),
            b'>' => f.write_str("&gt;"),
            b'"' => f.write_str("&quot;"),
            b'\'' => f.write_str("&#39;"),
            32..=126 => f.write_char(byte as char),
            _ => write!(
                f,
                "\\x{}{}",
                hex_digit(byte / 16) as char,
                hex_digit(byte % 16) as char
            ),
        }
    }
}
