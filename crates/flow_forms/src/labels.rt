//! The list of a plan's least labels.
ghost use Rattle.flow_forms.specs.Listing.{WritesLeast};

use flow_map::least::LeastMap;
use std::alloc::Global;
use std::io::Write;
use whole_writes::fault::ListFault;
use whole_writes::write_whole;

/// Writes the least labels of a plan, a line for each of its cells in plan order (own profile), in the form in which labels
/// are read.
///
/// # Errors
/// Memory was refused, and nothing was written; or a write failed, and a beginning of the list was written.
pub fn write_least_labels<W: Write>(
    alloc: Global,
    least: &LeastMap<'_>,
    writer: &mut W,
) -> Result<(), ListFault>
    ensures { WritesLeast least.now.plan (W.contents writer.old) (W.contents writer.new) result }
{
    least.known();
    let text = least.labels_text(alloc)?;
    write_whole(writer, &text)?;
    Ok(())
}
