//! Markup that says where something stands.
ghost use Rattle.std.specs.Prelude.{◌≡◌, OnOk};
ghost use Rattle.shown_text.specs.Pieces.{facts};

use cosem_data::memory::Memory;
use shown_text::pieces::Piece::{self, Constant, Place};
use shown_text::pieces::put;

/// Puts places, in pixels, each after its markup, and the markup after the last. None of it says anything of what is shown.
pub(crate) fn put_placed(
    pieces: &mut Vec<Piece<'_>>,
    places: &[(&'static str, i64)],
    end: &'static str,
) -> Result<(), Memory>
    ensures { OnOk result (facts pieces.new.items ≡ facts pieces.old.items) }
{
    for (before, place) in places {
        let sign = if *place < 0 { "-" } else { "" };
        let place = Place(u128::from(place.unsigned_abs()));
        put(pieces, &[Constant(before), Constant(sign), place])?;
    }
    put(pieces, &[Constant(end)])
}
