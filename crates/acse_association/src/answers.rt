//! The answers to an AARQ and an RLRQ, as they are written.
ghost use Rattle.std.specs.Prelude.{◌≡◌, ◌++◌, OnOk, OnErr, Ok, Err};
ghost use Rattle.acse_association.specs.Answers.{aare_bytes, rlre_bytes};

use crate::association::Association;
use crate::diagnostic::Diagnostic;
use bitflags::Flags;
use cosem_data::memory::Memory;

/// Puts the AARE that answers an AARQ behind what is there (IEC 62056-5-3, AARE-apdu): accepted, with what was agreed, or
/// refused, with the diagnostic.
///
/// # Errors
/// `Memory` where memory is refused; the vector then has what it had before.
pub fn write_aare(answer: &Result<Association, Diagnostic>, out: &mut Vec<u8>) -> Result<(), Memory>
    ensures ok { OnOk result (out.new.items ≡ out.old.items ++ aare_bytes answer.now) }
    ensures err { OnErr result (out.new.items ≡ out.old.items) }
{
    match answer {
        Ok(association) => write_accepted(association, out),
        Err(diagnostic) => write_refused(*diagnostic, out),
    }
}

/// The AARE of an association.
fn write_accepted(association: &Association, out: &mut Vec<u8>) -> Result<(), Memory>
    ensures ok { OnOk result (out.new.items ≡ out.old.items ++ aare_bytes (Ok association.now)) }
    ensures err { OnErr result (out.new.items ≡ out.old.items) }
{
    let [_, high, middle, low] = association.conformance.bits().to_be_bytes();
    out.extend_from_slice(&[
        0x61, 0x29, // the tag and the length
        0xA1, 0x09, 0x06, 0x07, 0x60, 0x85, 0x74, 0x05, 0x08, 0x01, 0x01, // the context
        0xA2, 0x03, 0x02, 0x01, 0x00, // result: accepted
        0xA3, 0x05, 0xA1, 0x03, 0x02, 0x01, 0x00, // result-source-diagnostic: none
        0xBE, 0x10, 0x04, 0x0E, 0x08, 0x00, 0x06, // InitiateResponse, version 6
        0x5F, 0x1F, 0x04, 0x00, high, middle, low, // the conformance
        0x04, 0x00, 0x00, 0x07, // 1,024 bytes an APDU, and the VAA name
    ])?;
    Ok(())
}

/// The AARE of a refusal.
fn write_refused(diagnostic: Diagnostic, out: &mut Vec<u8>) -> Result<(), Memory>
    ensures ok { OnOk result (out.new.items ≡ out.old.items ++ aare_bytes (Err diagnostic)) }
    ensures err { OnErr result (out.new.items ≡ out.old.items) }
{
    let number = diagnostic.number();
    out.extend_from_slice(&[
        0x61, 0x17, // the tag and the length
        0xA1, 0x09, 0x06, 0x07, 0x60, 0x85, 0x74, 0x05, 0x08, 0x01, 0x01, // the context
        0xA2, 0x03, 0x02, 0x01, 0x01, // result: rejected-permanent
        0xA3, 0x05, 0xA1, 0x03, 0x02, 0x01, number, // result-source-diagnostic
    ])?;
    Ok(())
}

/// Puts the RLRE that answers an RLRQ behind what is there (IEC 62056-5-3, RLRE-apdu), with the reason normal.
///
/// # Errors
/// `Memory` where memory is refused; the vector then has what it had before.
pub fn write_rlre(out: &mut Vec<u8>) -> Result<(), Memory>
    ensures ok { OnOk result (out.new.items ≡ out.old.items ++ rlre_bytes) }
    ensures err { OnErr result (out.new.items ≡ out.old.items) }
{
    out.extend_from_slice(&[0x63, 0x03, 0x80, 0x01, 0x00])?;
    Ok(())
}
