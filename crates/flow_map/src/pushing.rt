//! Items put behind others.
ghost use Rattle.std.specs.Prelude.{◌≡◌, ◌∷◌, ◌++◌, [], OnOk, cond};
ghost use Rattle.std.specs.Option.{option_to_list};

use cosem_data::memory::Memory;

/// Puts an item behind others, if a test holds. The only error is want of memory.
pub fn push_if<T: Copy>(holds: bool, item: T, list: &mut Vec<T>) -> Result<(), Memory>
    ensures { OnOk result (list.new.items ≡ list.old.items ++ cond holds (item ∷ []) []) }
{
    if holds {
        list.push(item)?;
    }
    Ok(())
}

/// Puts an item behind others, if there is one. The only error is want of memory.
pub fn push_some<T: Copy>(item: Option<T>, list: &mut Vec<T>) -> Result<(), Memory>
    ensures { OnOk result (list.new.items ≡ list.old.items ++ option_to_list item) }
{
    if let Some(item) = item {
        list.push(item)?;
    }
    Ok(())
}
