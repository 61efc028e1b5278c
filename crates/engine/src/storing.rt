// Storing a level with the staged colour in a slot (part 209, 9.2.2, 9.3.2 and 9.11.4): for power-on, for system
// failure, and for a scene. The level stands behind the fourteen bytes of its colour.
ghost use Rattle.std.specs.Prelude.{◌≡◌, ◌≤◌, ◌+◌};
ghost use Rattle.engine.specs.Colours.{level_stored};
ghost use Rattle.gear.specs.Write.{remove_scene, set_power_on_level, set_scene, set_system_failure_level};
ghost use Rattle.slot.specs.Held.{Does};

use crate::serve::Slot;
use crate::staging::unstage;
use crate::stores::put_setting;
use colour::setting::ColourSetting;
use gear::settings::LevelSetting;
use slot::image::put_colour_at;
use slot::parts::{scene_place, tint_at};
use slot::places::{FAILURE, KIND, ON, SETTING_LEVEL, STAGED};

// A level, and before it the staged colour, if there is one, which is then taken away. The byte of its type is tested and not its mode: so
// `level_stored` says it, of any bytes, and a byte that is no type has no mode and is not the mask.
fn store_level(slot: &mut Slot, place: usize, level: u8)
    requires { place + 15 ≤ 512 }
    ensures { slot.new ≡ level_stored slot.old place level }
{
    let is_staged = slot[STAGED + KIND] != ColourSetting::MASK;
    slot[place + SETTING_LEVEL] = level;
    if is_staged {
        let staged = tint_at(slot, STAGED);
        put_colour_at(slot, place, staged.captured());
        unstage(slot);
    }
}

pub(crate) fn set_power_on_level(slot: &mut Slot, level: u8)
    ensures { Does (λ g. set_power_on_level g level) slot.old slot.new }
{
    store_level(slot, ON, level);
}

pub(crate) fn set_system_failure_level(slot: &mut Slot, level: u8)
    ensures { Does (λ g. set_system_failure_level g level) slot.old slot.new }
{
    store_level(slot, FAILURE, level);
}

// There is no seventeenth scene: storing it only takes the staged colour away.
pub(crate) fn set_scene(slot: &mut Slot, scene: u8, level: u8)
    ensures { Does (λ g. set_scene g scene level) slot.old slot.new }
{
    if scene < 16 {
        store_level(slot, scene_place(scene), level);
    } else if slot[STAGED + KIND] != ColourSetting::MASK {
        unstage(slot);
    }
}

pub(crate) fn remove_scene(slot: &mut Slot, scene: u8)
    ensures { Does (λ g. remove_scene g scene) slot.old slot.new }
{
    if scene < 16 {
        put_setting(slot, scene_place(scene), LevelSetting::unset());
    }
}
