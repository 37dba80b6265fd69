// Scenes have no functions: proofs/ computes given boxes and rows, to show each refusal, the order of refusals, and secrecy at work.
#![tactic(auto)]
