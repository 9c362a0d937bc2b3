// No code: tests, sums, words of bits and rows of checks, for the definitions of the crates above.
#![tactic(auto)]
