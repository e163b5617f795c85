//! The requests that rights allow.
use cosem_data::cell::{CellRef, MethodRef};
use std::fmt;
use value_text::cell::CellText;

/// A request that a right allows, by which a client influences or learns a cell (IEC 62056-5-3, GET, SET, ACTION).
#[derive(Clone, Copy, Debug, PartialEq, Eq, Drop)]
pub enum GrantedRequest {
    /// A GET of the cell.
    Get(CellRef),
    /// A SET of a cell whose write changes it.
    Set(CellRef),
    /// An ACTION that calls a method which changes it.
    Act(MethodRef),
    /// An ACTION that executes the script of a table with this number, which changes it (IEC 62056-6-2, Script table, execute).
    Execute(MethodRef, u16),
}

/// A request in the words of steps, without a value.
impl fmt::Display for GrantedRequest {
    ghost use Rattle.std.specs.Prelude.{Some};
    ghost use Rattle.flow_map.specs.Requests.{request_text};

    ghost output = { λ request. Some (request_text request) };

    fn fmt<W: fmt::Write>(&self, f: &mut fmt::Formatter<W>) -> fmt::Result {
        match self {
            GrantedRequest::Get(cell) => write!(f, "get {}", CellText(*cell)),
            GrantedRequest::Set(cell) => write!(f, "set {}", CellText(*cell)),
            GrantedRequest::Act(method) => write!(f, "act {}", MethodText(*method)),
            GrantedRequest::Execute(method, script) => {
                write!(f, "act {} long-unsigned {script}", MethodText(*method))
            }
        }
    }
}

/// A method as it is printed: `class_id/logical name/method`.
#[derive(Drop)]
struct MethodText(MethodRef);

impl fmt::Display for MethodText {
    ghost use Rattle.std.specs.Prelude.{Some};
    ghost use Rattle.flow_map.specs.Requests.{method_text};

    ghost output = { λ method. Some (method_text method.0) };

    fn fmt<W: fmt::Write>(&self, f: &mut fmt::Formatter<W>) -> fmt::Result {
        let MethodRef {
            class_id,
            name,
            index,
        } = self.0;
        write!(f, "{class_id}/{name}/{index}")
    }
}
