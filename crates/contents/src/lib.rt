// One sector: what a reader gets at an address, and a sector put there. Definitions and laws, no code.

#![tactic(auto)]
