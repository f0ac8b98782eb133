// What loops leave in lists: definitions and laws only, shared by the crates whose loops fill an array place by place.
#![tactic(auto)]
