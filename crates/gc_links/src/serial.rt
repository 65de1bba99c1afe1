//! The acts of a link over a serial device, by the system's calls.

ghost use Rattle.std.specs.Prelude.{◌≡◌, ℕ, ◌<◌, length, List, Some};
ghost use Rattle.std.specs.Time.{instant_nanos};
ghost use Rattle.gc_links.specs.Acts.{CameWithin, IsPartIfErr, read_act, put_act};
ghost use Rattle.gc_links.specs.Calls.{Makes};
ghost use Rattle.gc_links.specs.Devices.{device_end};
ghost use Rattle.gc_links.specs.Does.{DoesOver};

use crate::device::{MOST_RESTS, REST, rest_of};
use crate::link::Came;
use crate::moments::came;
use crate::system::{Heard, OpenDevice, System, Written};
use crate::timer::Timer;
use std::time::Clock;

/// Reads a device until bytes came, it ended or failed, the clock couldn't be read, or `millis` milliseconds have gone by. The
/// moment of a silence is taken before the last read. That read gave nothing, so nothing had come by that moment.
pub(crate) fn read_serial<R: Clock>(
    system: &mut System<'_, R>,
    timer: &Timer,
    device: &OpenDevice<'_>,
    buf: &mut [u8],
    millis: u64,
) -> Came
    ensures does { Makes system.old.calls.made system.new.calls.made (DoesOver (instant_nanos timer.now.start) (Some (device_end device.now)) (read_act result buf.new)) }
    ensures within { CameWithin result buf.new }
{
    let Ok(moment) = timer.moment(system) else {
        return Came::NoMoment;
    };
    read_until(system, timer, device, buf, moment.elapsed, millis)
}

// Reads as `read_serial` does. `began` is the moment at which the read began, in milliseconds since the link was made.
fn read_until<R: Clock>(
    system: &mut System<'_, R>,
    timer: &Timer,
    device: &OpenDevice<'_>,
    buf: &mut [u8],
    began: u64,
    millis: u64,
) -> Came
    ensures does { Makes system.old.calls.made system.new.calls.made (DoesOver (instant_nanos timer.now.start) (Some (device_end device.now)) (read_act result buf.new)) }
    ensures within { CameWithin result buf.new }
{
    let mut quiet = match read_once(system, timer, device, buf) {
        Came::Silence(moment) => moment,
        came => return came,
    };
    for _ in 0..u64::MAX {
        let waited = quiet.elapsed.saturating_sub(began);
        if waited >= millis {
            break;
        }
        system.rest(REST.min(millis - waited));
        match read_once(system, timer, device, buf) {
            Came::Silence(moment) => quiet = moment,
            came => return came,
        }
    }
    Came::Silence(quiet)
}

// Reads the clocks, and then the device once.
fn read_once<R: Clock>(
    system: &mut System<'_, R>,
    timer: &Timer,
    device: &OpenDevice<'_>,
    buf: &mut [u8],
) -> Came
    ensures does { Makes system.old.calls.made system.new.calls.made (DoesOver (instant_nanos timer.now.start) (Some (device_end device.now)) (read_act result buf.new)) }
    ensures within { CameWithin result buf.new }
{
    let Ok(moment) = timer.moment(system) else {
        return Came::NoMoment;
    };
    match system.read_device(device, buf) {
        Heard::Came(n) => came(system, timer, n),
        Heard::CameNone => Came::Silence(moment),
        Heard::Failed => Came::Failure,
    }
}

/// Writes all bytes over a device, and rests while it isn't ready. All rests of one put together last about [`PATIENCE`] at most
/// (`MOST_RESTS`); after that the put fails. A write that succeeds and takes nothing counts as failed.
///
/// [`PATIENCE`]: crate::connection::PATIENCE
pub(crate) fn send_serial<R: Clock>(
    system: &mut System<'_, R>,
    device: &OpenDevice<'_>,
    bytes: &[u8],
) -> Result<(), usize>
    ensures does { (start : ℕ) → Makes system.old.calls.made system.new.calls.made (DoesOver start (Some (device_end device.now)) (put_act result bytes.now)) }
    ensures part { IsPartIfErr result bytes.now }
{
    let mut at = 0;
    let mut rests = 0;
    while at < bytes.len() {
        match system.write_device(device, &bytes[at..]) {
            Written::Took(0) => return Err(at),
            Written::Took(n) => at += n,
            Written::TookNone if rests < MOST_RESTS => {
                system.rest(rest_of(rests));
                rests += 1;
            }
            Written::TookNone | Written::Failed => return Err(at),
        }
    }
    Ok(())
}
