//! Copies in the texts of cases, spelt out.
use std::alloc::Global;

/// The text with its copies spelt out: for `<<N*ITEM>>` N times the item. Copies are numbered: `$` is a number of two
/// digits, from 10 on, and `&` another, which rises each time that `$` has been 99 and begins again at 10. None where a
/// copy isn't well formed, or memory was refused.
pub(crate) fn with_copies(alloc: Global, text: &str) -> Option<String> {
    let mut whole = String::new(alloc);
    push_spelt(&mut whole, text)?;
    Some(whole)
}

/// Appends a text with its copies spelt out.
fn push_spelt(whole: &mut String, text: &str) -> Option<()> {
    let mut is_copied = false;
    for part in text.split("<<") {
        if is_copied {
            push_part(whole, part)?;
        } else {
            whole.push_str(part).ok()?;
            is_copied = true;
        }
    }
    Some(())
}

/// Appends what `N*ITEM>>` and the text behind it stand for.
fn push_part(whole: &mut String, part: &str) -> Option<()> {
    let (copies, rest) = part.split_once(">>")?;
    let (count, item) = copies.split_once("*")?;
    push_copies(whole, count.parse::<u32>().ok()?, item)?;
    whole.push_str(rest).ok()
}

/// Appends so many numbered copies of the item.
fn push_copies(whole: &mut String, count: u32, item: &str) -> Option<()> {
    for number in 0..count {
        for char in item.chars() {
            match char {
                '$' => push_number(whole, number % 90 + 10)?,
                '&' => push_number(whole, number / 90 % 90 + 10)?,
                _ => whole.push(char).ok()?,
            }
        }
    }
    Some(())
}

/// Appends a number of two digits.
fn push_number(whole: &mut String, number: u32) -> Option<()> {
    whole
        .push(char::from(b'0' + (number / 10 % 10) as u8))
        .ok()?;
    whole.push(char::from(b'0' + (number % 10) as u8)).ok()
}
