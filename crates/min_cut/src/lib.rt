// No code: the theory of cuts, flows and cut trees.
#![tactic(auto)]
