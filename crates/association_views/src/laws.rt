//! Laws of the views: what their contracts leave to the constants of their class.
ghost use Rattle.std.specs.Prelude.{◌≡◌};

use crate::view::View;
use cosem_class::class::InterfaceClass;
use meter_theory::refs::Interface;

/// The class of the current association is 15, Association LN, version 0, with eight attributes and four methods
/// (IEC 62056-6-2, Association LN).
pub fn views_are_associations() -> Interface
    ensures { result ≡ record { class_id = 15; version = 0; attributes = 8; methods = 4 } }
{
    Interface {
        class_id: View::CLASS_ID,
        version: View::VERSION,
        attributes: View::ATTRIBUTES,
        methods: View::METHODS,
    }
}
