// The levels of a slot put back.
ghost use Rattle.gear.specs.Parts.{with_light};
ghost use Rattle.slot.specs.Held.{Does};

use crate::serve::Slot;
use level::levels::Levels;
use slot::places::{LAST_LEVEL, LEVEL, LIMIT_ERROR, MAX_LEVEL, MIN_LEVEL};

pub(crate) fn put_levels(slot: &mut Slot, levels: Levels)
    ensures { Does (λ g. with_light g levels g.marks g.colour) slot.old slot.new }
{
    slot[LEVEL] = levels.level;
    slot[LAST_LEVEL] = levels.last;
    slot[MIN_LEVEL] = levels.min;
    slot[MAX_LEVEL] = levels.max;
    slot[LIMIT_ERROR] = u8::from(levels.error);
}
