// How a call is refused: a list of tests, of which the first that applies decides. Definitions and laws, for every type of refusals; no code.
#![tactic(auto)]
