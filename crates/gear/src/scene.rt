// One entry of the sixteen scenes and groups. There is no seventeenth: reading it finds nothing.
ghost use Rattle.std.specs.Prelude.{◌≡◌};
ghost use Rattle.gear.specs.Scene.{scene_at, member_at};

use crate::settings::LevelSetting;
use numbers::entries::entry_or;

#[tactic(auto, unfolding(crate::specs::Scene::scene_at), using(numbers::proofs::Lists::get_or_within))]
pub fn scene_at(scenes: [LevelSetting; 16], scene: u8) -> LevelSetting
    ensures { result ≡ scene_at scenes scene }
{
    entry_or(scenes, scene, LevelSetting::unset())
}

#[tactic(auto, unfolding(crate::specs::Scene::member_at))]
pub fn is_member(groups: [bool; 16], group: u8) -> bool
    ensures { result ≡ member_at groups group }
{
    entry_or(groups, group, false)
}
