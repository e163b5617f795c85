/// What an action of a script does (IEC 62056-6-2, Script table, service_id).
#[derive(Clone, Copy, Debug, PartialEq, Eq, Drop)]
pub enum Service {
    /// 1: writes the value to an attribute.
    Write,
    /// 2: calls a method with the value as its parameter.
    Invoke,
}
