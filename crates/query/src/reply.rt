// A query: what it answers, and the record that follows.
ghost use Rattle.std.specs.Prelude.{◌≡◌};
ghost use Rattle.query.specs.Reply.{reported, query, gear_query_reply};

use crate::heard::{reports, shown, walked};
use crate::told::{Seen, query_answer};
use colour::record::Colour;
use colour::report::load_report_from;
use gear::answer::{Outcome, Refusal, refused};
use gear::record::Gear;
use gear::scene::scene_at;

// Part 209, 11.3.2: a colour gear reports the colour of the level that it tells.
fn reported(gear: Gear, byte: u8) -> Colour
    ensures { result ≡ reported gear byte }
{
    if reports(gear.unit, byte) {
        let scene = scene_at(gear.scenes, byte % 16).colour;
        let told = shown(gear.colour.active, gear.settings, scene, byte);
        return load_report_from(gear.colour, told);
    }
    gear.colour
}

fn query(gear: Gear, byte: u8) -> Outcome
    ensures { result ≡ query gear byte }
{
    let scene = scene_at(gear.scenes, byte % 16).level;
    Outcome {
        answer: query_answer(Seen::of(&gear, scene), byte),
        gear: Gear {
            marks: walked(gear.unit, gear.marks, byte),
            colour: reported(gear, byte),
            ..gear
        },
    }
}

#[tactic(auto, unfolding(crate::specs::Reply::gear_query_reply, gear::specs::Serve::serve))]
pub fn gear_query_reply(gear: Gear, byte: u8) -> Outcome
    ensures { result ≡ gear_query_reply gear byte }
{
    if !gear.fit() {
        return refused(gear, Refusal::Unfit);
    }
    query(gear, byte)
}
