//! What is told of a configuration, fact by fact.
use cosem_data::cell::CellRef;
use cosem_data::name::LogicalName;
use flow_map::words::{access_word, reach_word};
use meter_theory::flow::{Access, Edge, Reach};
use std::fmt;
use value_text::cell::CellText;
use value_text::edge::EdgeText;

/// What may be told of a configuration (own profile). A client is told by its name, an object by its class and name.
#[derive(Clone, Copy)]
pub enum Fact<'a> {
    /// The client may influence or learn the cell, or the policy allows it.
    Reaches {
        client: &'a str,
        reach: Reach,
        cell: CellRef,
    },
    /// The client's view has the object.
    Views {
        client: &'a str,
        class_id: u16,
        object: LogicalName,
    },
    /// A right of the client allows a GET or SET of the attribute, or an ACTION of the method.
    Holds {
        client: &'a str,
        access: Access,
        member: CellRef,
    },
    /// The client has this service access point.
    HasSap {
        client: &'a str,
        sap: u8,
    },
    /// The client needs no password.
    IsOpen {
        client: &'a str,
    },
    /// There is such a cell.
    HasCell(CellRef),
    /// There is such an edge.
    HasEdge(Edge),
}

/// Words between single spaces, of which the first is the client's name where the fact is a client's own.
impl fmt::Display for Fact<'_> {
    ghost use Rattle.std.specs.Prelude.{Some};
    ghost use Rattle.flow_changes.specs.Facts.{fact_text};
    ghost use Rattle.flow_changes.specs.Shown.{shown};

    ghost output = { λ fact. Some (fact_text (shown fact)) };

    fn fmt<W: fmt::Write>(&self, f: &mut fmt::Formatter<W>) -> fmt::Result {
        match *self {
            Fact::Reaches {
                client,
                reach,
                cell,
            } => write!(f, "{client} {} {}", reach_word(reach), CellText(cell)),
            Fact::Views {
                client,
                class_id,
                object,
            } => write!(f, "{client} view {class_id}/{object}"),
            Fact::Holds {
                client,
                access,
                member,
            } => write!(f, "{client} {} {}", access_word(access), CellText(member)),
            Fact::HasSap { client, sap } => write!(f, "{client} sap {sap}"),
            Fact::IsOpen { client } => write!(f, "{client} open"),
            Fact::HasCell(cell) => write!(f, "{}", CellText(cell)),
            Fact::HasEdge(edge) => write!(f, "{}", EdgeText(edge)),
        }
    }
}
