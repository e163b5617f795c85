//! The marks of the matrix, as pieces.
ghost use Rattle.std.specs.Prelude.{◌≡◌, ◌++◌, OnOk};
ghost use Rattle.shown_text.specs.Pieces.{facts};
ghost use Rattle.flow_page.specs.Matrix as spec;

use crate::lines_text::{ACT, GET, SET, put_request};
use crate::lists::{Entry, FIELD, Pieces, fill, put_each};
use crate::matrix;
use crate::matrix::{Found, WayLink};
use crate::ways_text::{by_reach, put_anchor};
use cosem_data::memory::Memory;
use flow_map::kind::Change;
use flow_map::request::GrantedRequest;
use shown_text::pieces::Piece::{Mark, Number};

const GAINED: &str = "+ ";

const LOST: &str = "&minus; ";

/// What stands in a mark where there is no way: of what the policy allows, and of what it doesn't.
const NO_WAY: &str = "&#9675;";

const NEITHER: &str = "&middot;";

/// The classes of marks.
const MAY_CHANGE: &str = "m c";

const MAY_LEARN: &str = "m l";

const NOT_ALLOWED: &str = "m x";

/// What is read before a mark that the policy doesn't allow.
const ALARM: &str = "! ";

const BY_EDGES: &str = "&rarr;";

/// The sign of what is gained or lost.
fn sign_of(change: Option<Change>) -> &'static str
    ensures { result.now ≡ spec.sign_of change }
{
    match change {
        None => "",
        Some(Change::Gained) => GAINED,
        Some(Change::Lost) => LOST,
    }
}

/// Puts the word of a right, or how many edges, after other pieces.
fn put_found(pieces: &mut Pieces<'_>, found: Found) -> Result<(), Memory>
    ensures { OnOk result (facts pieces.new.items ≡ facts pieces.old.items ++ spec.found_facts found) }
{
    match found {
        Found::Right(GrantedRequest::Get(_)) => fill(pieces, "{}", &[Mark(GET)]),
        Found::Right(GrantedRequest::Set(_)) => fill(pieces, "{}", &[Mark(SET)]),
        Found::Right(GrantedRequest::Act(_)) => fill(pieces, "{}", &[Mark(ACT)]),
        Found::Right(GrantedRequest::Execute(_, _)) => fill(pieces, "{}", &[Mark(ACT)]),
        Found::Edges(edges) => fill(pieces, "{}{}", &[Mark(BY_EDGES), Number(edges as u128)]),
    }
}

/// Puts the attribute with the request of a right to a method, whose word alone doesn't say which, after other pieces.
fn put_title(pieces: &mut Pieces<'_>, found: Found) -> Result<(), Memory>
    ensures { OnOk result (facts pieces.new.items ≡ facts pieces.old.items ++ spec.title_facts found) }
{
    match found {
        Found::Right(GrantedRequest::Get(_)) => Ok(()),
        Found::Right(GrantedRequest::Set(_)) => Ok(()),
        Found::Right(request) => {
            fill(pieces, " title=\"", &[])?;
            put_request(pieces, request)?;
            fill(pieces, "\"", &[])
        }
        Found::Edges(_) => Ok(()),
    }
}

/// Puts the place of a way, to which the mark is a link, and its first lines after other pieces.
fn put_link<'a>(pieces: &mut Pieces<'a>, link: &'a WayLink) -> Result<(), Memory>
    ensures { OnOk result (facts pieces.new.items ≡ facts pieces.old.items ++ spec.link_facts link.now) }
{
    put_anchor(pieces, " href=\"#{}{}-{}\" title=\"", link.anchor)?;
    put_each(pieces, "&#10;", &link.title)?;
    fill(pieces, "\"", &[])
}

impl matrix::Mark {
    /// The class of the mark.
    fn sort(&self) -> &'static str
        ensures { result.now ≡ spec.sort_of self.now }
    {
        if self.allowed {
            by_reach(self.reach, MAY_CHANGE, MAY_LEARN)
        } else {
            NOT_ALLOWED
        }
    }

    /// Puts what is read in the mark, where there is a way, after other pieces.
    fn put_word(&self, found: Found, pieces: &mut Pieces<'_>) -> Result<(), Memory>
        ensures { OnOk result (facts pieces.new.items ≡ facts pieces.old.items ++ spec.word_facts self.now found) }
    {
        let alarm = if self.allowed { "" } else { ALARM };
        fill(pieces, "{}{}", &[Mark(sign_of(self.change)), Mark(alarm)])?;
        put_found(pieces, found)
    }

    /// Puts what stands in the mark, where there is a way, after other pieces: a link to it, if the page shows it.
    fn put_reached<'a>(&'a self, found: Found, pieces: &mut Pieces<'a>) -> Result<(), Memory>
        ensures { OnOk result (facts pieces.new.items ≡ facts pieces.old.items ++ spec.reached_facts self.now found) }
    {
        let sort = Mark(self.sort());
        if let Some(link) = &self.link {
            fill(pieces, "<a class=\"{}\"", &[sort])?;
            put_link(pieces, link)?;
            fill(pieces, ">", &[])?;
            self.put_word(found, pieces)?;
            fill(pieces, "</a>", &[])
        } else {
            fill(pieces, "<b class=\"{}\"", &[sort])?;
            put_title(pieces, found)?;
            fill(pieces, ">", &[])?;
            self.put_word(found, pieces)?;
            fill(pieces, "</b>", &[])
        }
    }
}

/// A field of the matrix.
impl Entry for matrix::Mark {
    ghost use Rattle.flow_page.specs.Matrix.{mark_facts};

    ghost says = { mark_facts };

    fn put<'a>(&'a self, pieces: &mut Pieces<'a>) -> Result<(), Memory> {
        fill(pieces, "{}", &[Mark(FIELD)])?;
        if let Some(found) = self.found {
            self.put_reached(found, pieces)?;
        } else {
            let dot = if self.allowed { NO_WAY } else { NEITHER };
            fill(pieces, "{}{}", &[Mark(sign_of(self.change)), Mark(dot)])?;
        }
        fill(pieces, "</td>", &[])
    }
}
