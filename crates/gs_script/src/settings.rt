ghost use Rattle.std.specs.Prelude.{◌≡◌, option_and_then};
ghost use Rattle.gs_script.specs.inside.Kept.{delay_set, gap_set, inc_set, is_lost_set, setting_of};

use crate::line::{Line, Setting};

/// What a record sets, by the record's number among those behind the first of the script, from 1.
/// Number 0 stands for no record.
fn setting_of(lines: &[Line], number: u32) -> Option<Setting>
    ensures { result ≡ setting_of lines.now number }
{
    let place = number.checked_sub(1)?;
    let line = lines.get(place as usize)?;
    Some(line.setting)
}

/// The increment that the record of a number sets, in clock units.
pub(crate) fn inc_set(lines: &[Line], number: u32) -> Option<u32>
    ensures { result ≡ option_and_then inc_set (setting_of lines.now number) }
{
    match setting_of(lines, number) {
        Some(Setting::Drift { inc, .. }) => Some(inc),
        _ => None,
    }
}

/// The gap between ticks that it sets, in quanta.
pub(crate) fn gap_set(lines: &[Line], number: u32) -> Option<u32>
    ensures { result ≡ option_and_then gap_set (setting_of lines.now number) }
{
    match setting_of(lines, number) {
        Some(Setting::Tick { gap, .. }) => Some(gap),
        _ => None,
    }
}

/// The delay that it sets, in quanta.
pub(crate) fn delay_set(lines: &[Line], number: u32) -> Option<u32>
    ensures { result ≡ option_and_then delay_set (setting_of lines.now number) }
{
    match setting_of(lines, number) {
        Some(Setting::Delay { quanta, .. }) => Some(quanta),
        _ => None,
    }
}

/// Whether beacons are lost, where it sets that.
pub(crate) fn is_lost_set(lines: &[Line], number: u32) -> Option<bool>
    ensures { result ≡ option_and_then is_lost_set (setting_of lines.now number) }
{
    match setting_of(lines, number) {
        Some(Setting::Loss { is_lost, .. }) => Some(is_lost),
        _ => None,
    }
}
