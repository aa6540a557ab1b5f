// Gamma by TGAS1: the fit of a band's piece, and whether the listing warns.
#![tactic(auto)]

ghost use Rattle.std.specs.Prelude.{◌≡◌};
ghost use Rattle.std.specs.Int.Signed.{lt_z};
ghost use Rattle.weight.specs.Choice.{weight_by};
ghost use Rattle.fit.specs.Edge.{edge_with, Workable};
ghost use Rattle.tgas1_gamma.specs.Gamma.{gamma_piece, gamma_limit};

use bands::Band;
use fit::Edge;

// The fit of a band's piece that Z chooses.
pub fn gamma(band: Band, y: i64, z: i64) -> Edge
    requires { Workable (gamma_piece band z) y z }
    ensures { result ≡ edge_with weight_by (gamma_piece band z) y z }
{
    match band {
        Band::Low => tgas1_gamma_low::gamma(y, z),
        Band::Middle => tgas1_gamma_middle::gamma(y, z),
        Band::High => tgas1_gamma_high::gamma(y, z),
    }
}

// Whether the listing warns about a Z in a band.
pub fn is_warned(band: Band, z: i64) -> bool
    ensures { result ≡ lt_z (gamma_limit band) z }
{
    match band {
        Band::Low => 3690000 < z,
        Band::Middle => 3400000 < z,
        Band::High => 2900000 < z,
    }
}
