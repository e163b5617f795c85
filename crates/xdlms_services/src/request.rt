use meter_theory::refs::Descriptor;
use object_model::argument::Argument;

/// What a client asks of one attribute or of one method, or that it asks for the next block of a value.
///
/// The descriptor (IEC 62056-5-3, Cosem-Attribute-Descriptor or Cosem-Method-Descriptor) is as it was sent: it need not be that
/// of any attribute or method. The invoke byte is the Invoke-Id-And-Priority, which the reply brings back.
#[derive(Drop)]
pub enum Request {
    /// Get-Request-Normal. The selection is a selector and its parameter, which is never `Absent`
    /// (Selective-Access-Descriptor).
    Get {
        invoke: u8,
        attribute: Descriptor,
        selection: Option<(u8, Argument)>,
    },
    /// Set-Request-Normal. Where it has a selection (`selected`), nothing behind the flag is read and
    /// the value is `Absent`; else the value is never `Absent`.
    Set {
        invoke: u8,
        attribute: Descriptor,
        selected: bool,
        value: Argument,
    },
    /// Action-Request-Normal. The argument is the parameter of the method (method-invocation-parameters);
    /// it is `Absent` where the request has none, and else never.
    Act {
        invoke: u8,
        method: Descriptor,
        argument: Argument,
    },
    /// Get-Request-Next: the block after the one with this number, which was sent last, of a value that is sent in
    /// blocks.
    Next {
        invoke: u8,
        block: u32,
    },
}
