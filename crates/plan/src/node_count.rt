// How many nodes a plan's network has, once it is known to be within the limits.
ghost use Rattle.std.specs.Prelude.{◌<◌, ◌≤◌};
ghost use Rattle.network.specs.Limits.{max_nodes};

#[derive(Clone, Copy)]
pub struct NodeCount {
    pub count: usize,
    pub ghost some: { 0 < count },
    pub ghost few: { count ≤ max_nodes },
}
