// The record itself: built from a profile, reset, and fit to be used.
ghost use Rattle.std.specs.Prelude.{◌≡◌};
ghost use Rattle.gear.specs.Record.{fresh_gear, new_gear, fitb, reset_gear};

use crate::answer::{Outcome, Refusal, done, refused};
use crate::condition::Condition;
use crate::marks::Marks;
use crate::profile::{Profile, RECORD_TYPES, Unit};
use crate::settings::{LevelSetting, Settings};
use bank::build::Banks;
use colour::record::Colour;
use level::levels::Levels;

#[derive(Clone, Copy)]
pub struct Gear {
    // What the profile says of the gear: no call changes it.
    pub unit: Unit,
    // What arc power and recalls light.
    pub levels: Levels,
    pub marks: Marks,
    pub colour: Colour,
    // What the other writes store.
    pub settings: Settings,
    pub scenes: [LevelSetting; 16],
    // What no standard write but a reset changes.
    pub condition: Condition,
    pub banks: Banks,
}

impl Gear {
    // A new gear of a profile, whatever that is.
    #[tactic(auto, unfolding(crate::specs::Record::fresh_gear))]
    fn fresh(profile: Profile) -> Gear
        ensures { result ≡ fresh_gear profile }
    {
        let Profile {
            unit,
            can,
            physical,
        } = profile;
        Gear {
            unit,
            levels: Levels::fresh(unit.minimum),
            marks: Marks::fresh(),
            colour: Colour::fresh(can, physical),
            settings: Settings::factory(unit, can),
            scenes: [LevelSetting::unset(); 16],
            condition: Condition::fresh(),
            banks: Banks::build(unit.random),
        }
    }

    // The gear of an accepted profile. A refusal comes with a record that no call accepts: so it is an Outcome, and no Result (`PromisedNew` and
    // `useless`, crates/demands, hold both).
    #[tactic(auto, unfolding(crate::specs::Record::new_gear))]
    pub fn new(profile: Profile) -> Outcome
        ensures { result ≡ new_gear profile }
    {
        if profile.accepted() {
            return done(Gear::fresh(profile));
        }
        refused(Gear::fresh(Profile::none()), Refusal::Profile)
    }

    // Document 01's fit record. Put into each call: where it is called (tried), a call copies the record for it, and one that only answers needs
    // 608 bytes of stack and not 104, and takes twice as long.
    #[tactic(auto, unfolding(crate::specs::Record::fitb))]
    #[inline(always)]
    pub fn fit(self) -> bool
        ensures { result ≡ fitb self }
    {
        self.unit.fit(RECORD_TYPES)
            && self.levels.fit(self.unit.min_level_floor())
            && self.colour.fit()
            && self.marks.fit()
    }

    // Part 102, 11.4.2 and part 209, table 8: a reset keeps the profile, enabled, the faults and the active colour; the rest is
    // that of a new gear, without the mark of a power cycle.
    #[tactic(auto, unfolding(crate::specs::Record::reset_gear, crate::specs::Record::fresh_gear))]
    pub fn reset_gear(unit: Unit, condition: Condition, colour: Colour) -> Gear
        ensures { result ≡ reset_gear unit condition colour }
    {
        Gear {
            unit,
            levels: Levels::fresh(unit.minimum),
            marks: Marks::reset(),
            colour: colour.reset(),
            settings: Settings::factory(unit, colour.can),
            scenes: [LevelSetting::unset(); 16],
            condition: condition.reset(),
            banks: Banks::build(unit.random),
        }
    }
}
