//! The frames of one connection, answered by a meter alone.
ghost use Rattle.frame_server.specs.Alone.{ServesAlone};

use crate::fault::ServeFault;
use crate::serving::serve;
use object_model::plan::Plan;
use std::alloc::Global;
use std::io::{Read, Write};
use xdlms_services::solo::Solo;

/// Answers the frames that the reader gives, by a meter of the plan that begins at its start, and says how many there were. It ends
/// as `serve` does.
///
/// # Errors
/// Those of `serve`; and `Memory` where the meter can't begin, and then nothing was read or written.
pub fn serve_alone<R: Read, W: Write>(
    alloc: Global,
    plan: &Plan,
    reader: &mut R,
    writer: &mut W,
) -> Result<u64, ServeFault>
    ensures { ServesAlone plan.now (R.remaining reader.old) (R.remaining reader.new)
        (W.contents writer.old) (W.contents writer.new) result }
{
    plan.known();
    let Ok(meter) = plan.start(alloc) else {
        return Err(ServeFault::Memory);
    };
    let mut solo = Solo::new(plan, meter);
    serve(alloc, reader, writer, plan, &mut solo)
}
