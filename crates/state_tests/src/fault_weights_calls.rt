//! The weights of kinds and of rates.
use fault_weights::{default_weight, weight_of_rate};
use grid_model::Kind;

#[test]
fn weighs_kinds_and_rates(rt: HostRuntime) {
    assert!(rt; default_weight(Kind::Fuse) == 40);
    for (rate, weight) in [
        (1, 300),
        (953, 210),
        (954, 200),
        (1_000, 200),
        (1_000_000, 100),
    ] {
        assert!(rt; 1 <= rate && rate <= 1_000_000);
        assert!(rt; weight_of_rate(rate) == weight, "{rate}");
    }
}
