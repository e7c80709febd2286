//! Lines that are sent by themselves.
ghost use Rattle.std.specs.Prelude.{◌≡◌, ◌≤◌, [], OnOk, length};
ghost use Rattle.gx_station.specs.Quiet.{Sends};

use exec_report::{ReportBuffer, SendFault, push_text, send_waiting};
use gx_base::LONGEST_LINE;
use gx_station::Station;

/// Sends a line by itself, through an empty buffer. `SendFault` comes only if the count of send faults rose, and a part is sent then.
pub fn send_line<S: Station>(
    buffer: &mut ReportBuffer,
    station: &mut S,
    line: &[u8],
) -> Result<(), SendFault>
    requires empty { buffer.old ≡ [] }
    requires short { length line.now ≤ LONGEST_LINE }
    ensures sends { Sends S.meanings station.old station.new line.now result }
    ensures empty { OnOk result (buffer.new ≡ []) }
{
    push_text(buffer, station, line)?;
    send_waiting(buffer, station)
}
