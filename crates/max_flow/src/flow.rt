// A flow as it grows.
use flow_hints::{Hints, Residual};

// The residual capacities that hold the flow, and the hints where more is to be sent.
#[derive(Clone, Copy)]
pub struct Flow {
    pub residual: Residual,
    pub hints: Hints,
}
