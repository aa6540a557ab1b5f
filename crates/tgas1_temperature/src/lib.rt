// Temperature by TGAS1: the fit of a band's piece.
#![tactic(auto)]

ghost use Rattle.std.specs.Prelude.{◌≡◌};
ghost use Rattle.weight.specs.Choice.{weight_by};
ghost use Rattle.fit.specs.Edge.{edge_with, Workable};
ghost use Rattle.tgas1_temperature.specs.Pieces.{piece_in};

use bands::Band;
use fit::Edge;

// The fit of a band's piece that Z chooses. As tgas1_gamma goes to its bands: one function over both would go to six crates.
pub fn fit(band: Band, y: i64, z: i64) -> Edge
    requires { Workable (piece_in band z) y z }
    ensures { result ≡ edge_with weight_by (piece_in band z) y z }
{
    match band {
        Band::Low => tgas1_temperature_low::fit(y, z),
        Band::Middle => tgas1_temperature_middle::fit(y, z),
        Band::High => tgas1_temperature_high::fit(y, z),
    }
}
