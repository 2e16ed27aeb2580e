ghost use Rattle.std.specs.Prelude.{◌<◌, ◌^◌, IfErr, IfOk, length};
ghost use Rattle.view_trace.specs.Inside.Readings.{HasReadAll, IsReadingFault};

use crate::fault::TraceFault;
use crate::reading::Reading;
use host_trace::is_passed_over;
use std::alloc::Global;
use tab_words::Lines;

// Reads all lines.
pub(crate) fn read_lines(alloc: Global, bytes: &[u8]) -> Result<Reading, TraceFault>
    requires { length bytes.now < 2 ^ 31 }
    ensures read { IfOk result (HasReadAll bytes.now) }
    ensures fault { IfErr result (IsReadingFault bytes.now) }
{
    let mut reading = Reading::begin(alloc);
    let mut number = 0;
    for line in Lines::over(bytes) {
        number += 1;
        if is_passed_over(line) {
            continue;
        }
        if let Err(fault) = reading.take_line(alloc, number, line) {
            return Err(fault);
        }
    }
    Ok(reading)
}
