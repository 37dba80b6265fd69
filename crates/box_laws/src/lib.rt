// Boxes whose caches are slot records have no functions of their own here: specs/ carries what a core gives for words over to
// slots, proofs/ says what an entry leaves in such a box.
#![tactic(auto)]
