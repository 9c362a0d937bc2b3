// No code: what is claimed of every list of calls, and its proof.
#![tactic(auto)]
