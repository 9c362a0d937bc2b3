// That a network can be prepared, kept and asked: the sides and values are those of resort A (docs/SCOPE.md, 10).
use crate::{ArcTable, Prepared};
use network::{Link, Network, ValidNetwork};

// resort A
fn resort_a() -> Option<ValidNetwork> {
    let mut network = Network::new(4, 5);
    let links = [(0, 1, 5), (1, 2, 3), (2, 3, 4), (0, 3, 2), (0, 2, 1)];
    for (k, (a, b, capacity)) in links.into_iter().enumerate() {
        network.set_link(k, Link { a, b, capacity });
    }
    ValidNetwork::new(network)
}

#[test]
fn prepared_once(rt: HostRuntime) {
    let Some(net) = resort_a() else {
        assert!(rt; false, "resort A is within the limits");
        return;
    };
    assert_eq!(rt; net.network.nodes, 4);
    let mut table = ArcTable::none();
    let prepared = Prepared::new(net, &mut table);
    let copy = prepared;
    let first = prepared.least_cut(1, 0);
    assert_eq!(rt; (first.side, first.value), (0b0010, 8));
    let second = prepared.least_cut(2, 0);
    assert_eq!(rt; (second.side, second.value), (0b1100, 6));
    let third = copy.least_cut(3, 2);
    assert_eq!(rt; (third.side, third.value), (0b1000, 6));
}
