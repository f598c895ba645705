// List 1: the devices, in component order.
ghost use Rattle.std.specs.Prelude.{◌≡◌, ◌≤◌, length};
ghost use Rattle.rules.specs.Lent.{SameDevices};
ghost use Rattle.describe.specs.Rows.{devices_of, DeviceRoom, DevicesListed};

use rules::lent::{Components, DeviceLists};
use tables::kinds::{component_delay, is_device, meaning_code};

// Writes an entry for each device; answers how many there are.
pub(crate) fn list_devices(components: &Components<'_>, devices: &mut DeviceLists<'_>) -> usize
    requires { DeviceRoom components.now devices.old }
    ensures same { SameDevices devices.old devices.new }
    ensures listed { DevicesListed components.now devices.old devices.new }
    ensures counted { result ≡ length (devices_of components.now) }
    ensures few { result ≤ length components.now.ids.now }
{
    let mut count = 0;
    // one index, of the five lists that are read beside the kinds; the count, which is the answer, rises with devices alone
    for (i, &kind) in components.kinds.iter().enumerate() {
        if is_device(kind) {
            devices.components[count] = components.ids[i];
            devices.xs[count] = components.xs[i];
            devices.ys[count] = components.ys[i];
            devices.zs[count] = components.zs[i];
            devices.semantics[count] = meaning_code(kind);
            devices.delays[count] = component_delay(kind, components.delays[i]);
            count += 1;
        }
    }
    count
}
