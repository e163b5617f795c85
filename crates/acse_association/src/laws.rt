//! Laws of the AARQ, over all fields and bytes.
ghost use Rattle.acse_association.specs.Laws.{FieldsAreRead, AarqIsRead, OneAarq, InitiateIsRead};

/// Of bytes, reading gives fields, an AARQ's fields or an InitiateRequest exactly where the bytes are a form of them.
pub fn reading_is_grammar()
    ensures fields { FieldsAreRead }
    ensures aarq { AarqIsRead }
    ensures initiate { InitiateIsRead }
{}

/// Bytes are an AARQ of one list of fields at most.
pub fn one_aarq()
    ensures { OneAarq }
{}
