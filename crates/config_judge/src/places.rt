//! The first places at which names stand.

ghost use Rattle.std.specs.Prelude.{◌≡◌, List, ℕ, IfOk};
ghost use Rattle.std.specs.BTreeMap as tree;
ghost use Rattle.std.specs.Cmp.Lexicographic.{slice_cmp};
ghost use Rattle.std.specs.List.{position_from};
ghost use Rattle.std.specs.Ordering.{nat_cmp};
ghost use Rattle.std.specs.Str.{bytes_eq};

use config_text::parts::{ClientParts, ObjectParts};
use cosem_data::memory::Memory;
use std::alloc::Global;
use std::collections::BTreeMap;

/// A part with a name.
pub(crate) trait Named {
    ghost use Rattle.std.specs.Prelude.{◌≡◌};
    ghost use Rattle.config_text.specs.Parts.{Text};

    /// The name of the part.
    ghost name_of: { Self → Text };

    /// The name of the part.
    fn name(&self) -> &str
        ensures { result.now ≡ name_of self.now };
}

impl Named for ObjectParts {
    ghost name_of = { λ o. o.name };

    fn name(&self) -> &str {
        self.name.as_str()
    }
}

impl Named for ClientParts {
    ghost name_of = { λ c. c.name };

    fn name(&self) -> &str {
        self.name.as_str()
    }
}

/// Each name with the place of the first part that has it.
pub(crate) fn first_places<'a, P: Named>(
    alloc: Global,
    parts: &'a [P],
) -> Result<BTreeMap<&'a str, usize>, Memory>
    ensures places { IfOk result (λ places. (q : List ℕ) →
        tree.get_by (λ k. slice_cmp nat_cmp q k.now) places
        ≡ position_from (λ p. bytes_eq (P.name_of p) q) 0 parts.now) }
{
    let mut places = BTreeMap::new(alloc);
    for i in (0..parts.len()).rev() {
        places.insert(parts[i].name(), i)?;
    }
    Ok(places)
}
