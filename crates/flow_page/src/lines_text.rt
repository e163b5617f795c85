//! The lines of ways, as pieces.
ghost use Rattle.std.specs.Prelude.{◌≡◌, ◌++◌, OnOk, flat_map};
ghost use Rattle.shown_text.specs.Pieces.{facts};
ghost use Rattle.flow_page.specs.Ways as spec;

use crate::edges_text::put_edge;
use crate::lists::{Entry, Pieces, fill, put_each};
use crate::ways::WayLine;
use cosem_data::cell::MethodRef;
use cosem_data::memory::Memory;
use flow_map::request::GrantedRequest;
use shown_text::pieces::Piece::{Cell, Hole, Mark, Name, Number};

pub(crate) const GET: &str = "get";

pub(crate) const SET: &str = "set";

pub(crate) const ACT: &str = "act";

/// Puts the call of a method after other pieces.
fn put_call(pieces: &mut Pieces<'_>, method: MethodRef) -> Result<(), Memory>
    ensures { OnOk result (facts pieces.new.items ≡ facts pieces.old.items ++ spec.call_facts method) }
{
    let class_id = Number(method.class_id as u128);
    let index = Number(method.index as u128);
    fill(
        pieces,
        "{} {}/{}/{}",
        &[Mark(ACT), class_id, Name(method.name), index],
    )
}

/// Puts a request, in the words of steps, after other pieces.
pub(crate) fn put_request(pieces: &mut Pieces<'_>, request: GrantedRequest) -> Result<(), Memory>
    ensures { OnOk result (facts pieces.new.items ≡ facts pieces.old.items ++ spec.request_facts request) }
{
    match request {
        GrantedRequest::Get(cell) => fill(pieces, "{} {}", &[Mark(GET), Cell(cell)]),
        GrantedRequest::Set(cell) => fill(pieces, "{} {}", &[Mark(SET), Cell(cell)]),
        GrantedRequest::Act(method) => put_call(pieces, method),
        GrantedRequest::Execute(method, script) => {
            put_call(pieces, method)?;
            fill(pieces, " long-unsigned {}", &[Number(script as u128)])
        }
    }
}

/// A line of a way, as `why` prints it. It may stand in an attribute, and so the `>` of its arrow goes by its name.
impl Entry for WayLine {
    ghost use Rattle.flow_page.specs.Ways.{line_facts};

    ghost says = { line_facts };

    fn put<'a>(&'a self, pieces: &mut Pieces<'a>) -> Result<(), Memory> {
        match self {
            WayLine::Request { client, request } => {
                fill(pieces, "{} ", &[Hole(client.as_str())])?;
                put_request(pieces, *request)
            }
            WayLine::Edge(edge) => put_edge(pieces, "{} -&gt; {} {}", edge),
            WayLine::Long {
                edges,
                client,
                cell,
            } => fill(
                pieces,
                "{} edges: cosem-flow why CONFIG {} {}",
                &[Number(*edges as u128), Hole(client.as_str()), Cell(*cell)],
            ),
        }
    }
}

/// Puts the lines of a way after other pieces.
pub(crate) fn put_way<'a>(pieces: &mut Pieces<'a>, lines: &'a [WayLine]) -> Result<(), Memory>
    ensures { OnOk result (facts pieces.new.items ≡ facts pieces.old.items ++ flat_map spec.line_facts lines.now) }
{
    fill(pieces, "<pre class=\"way\">", &[])?;
    put_each(pieces, "\n", lines)?;
    fill(pieces, "</pre>", &[])
}
