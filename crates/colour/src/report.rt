// Reports: the colour that a query of the gear leaves to be read.
ghost use Rattle.std.specs.Prelude.{◌≡◌};
ghost use Rattle.colour.specs.Report.{report_from};

use crate::record::Colour;
use crate::setting::ColourSetting;

// The report of a colour: the active one, a scene's, the power-on's or the system failure's.
#[tactic(auto, unfolding(crate::specs::Report::report_from))]
pub fn load_report_from(colour: Colour, setting: ColourSetting) -> Colour
    ensures { result ≡ report_from colour setting }
{
    Colour {
        report: setting,
        ..colour
    }
}
