//! Theorems about texts that are shown: each function's clauses are its statement, and its body is empty.
ghost use Rattle.std.specs.Prelude.{◌≡◌, ℕ, List, true};
ghost use Rattle.std.specs.List.{list_all};
ghost use Rattle.shown_text.specs.Html.{html_text, is_plain};
ghost use Rattle.shown_text.specs.Printable.{is_byte, is_printable, printable};

/// Texts from outside are shown by printable characters of ASCII alone, and in HTML by none that begins or ends a tag or an attribute
/// between quotation marks.
pub fn shown_texts_are_plain()
    ensures printable { (text : List ℕ) → list_all is_byte text ≡ true → list_all is_printable (printable text) ≡ true }
    ensures html { (text : List ℕ) → list_all is_byte text ≡ true → list_all is_plain (html_text text) ≡ true }
{}
