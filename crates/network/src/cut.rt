// The value of a cut, worked out from its definition.
ghost use Rattle.std.specs.Prelude.{◌≡◌};
ghost use Rattle.base.specs.Word.{holds};
ghost use Rattle.network.specs.Network.{value_of};

use crate::ValidNetwork;

pub fn cut_value(net: ValidNetwork, side: u64) -> u32
    ensures { result ≡ value_of net.network (holds side) }
{
    net.each_link().map(|link| link.crossing(side)).sum()
}
