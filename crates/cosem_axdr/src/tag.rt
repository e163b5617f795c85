//! The tags of the kinds.
ghost use Rattle.std.specs.Prelude.{◌≡◌};
ghost use Rattle.cosem_axdr.specs.Reading.{kind_of_tag};

use cosem_data::kind::Kind;

/// The kind with this tag (IEC 62056-5-3, type `Data`), where it is one of the fifteen.
#[tactic(auto, unfolding(crate::specs::Reading::kind_of_tag))]
pub(crate) fn kind_of(tag: u8) -> Option<Kind>
    ensures { result ≡ kind_of_tag tag }
{
    match tag {
        0 => Some(Kind::NullData),
        1 => Some(Kind::Array),
        2 => Some(Kind::Structure),
        3 => Some(Kind::Boolean),
        5 => Some(Kind::DoubleLong),
        6 => Some(Kind::DoubleLongUnsigned),
        9 => Some(Kind::OctetString),
        10 => Some(Kind::VisibleString),
        15 => Some(Kind::Integer),
        16 => Some(Kind::Long),
        17 => Some(Kind::Unsigned),
        18 => Some(Kind::LongUnsigned),
        20 => Some(Kind::Long64),
        21 => Some(Kind::Long64Unsigned),
        22 => Some(Kind::Enumerated),
        _ => None,
    }
}
