// Stores of more than one byte.
ghost use Rattle.std.specs.Prelude.{◌≡◌, ◌+◌, ◌≤◌, ◌/◌, ◌%◌, set};
ghost use Rattle.slot.specs.Calls.{colour_put};

use crate::serve::Slot;
use gear::settings::LevelSetting;
use slot::image::put_colour_at;
use slot::places::SETTING_LEVEL;

// Low byte first.
pub(crate) fn put_word(slot: &mut Slot, place: usize, number: u16)
    requires { place + 2 ≤ 512 }
    ensures { slot.new ≡ set (set slot.old place (number % 256)) (place + 1) (number / 256) }
{
    let [low, high] = number.to_le_bytes();
    slot[place] = low;
    slot[place + 1] = high;
}

// A colour, and the level behind it.
pub(crate) fn put_setting(slot: &mut Slot, place: usize, setting: LevelSetting)
    requires { place + 15 ≤ 512 }
    ensures { slot.new ≡ colour_put (set slot.old (place + 14) setting.level) place setting.colour }
{
    slot[place + SETTING_LEVEL] = setting.level;
    put_colour_at(slot, place, setting.colour);
}
