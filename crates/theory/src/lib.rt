// No code: the laws that the solver and the widener rest on, about the abstract board of `board`.
#![tactic(auto)]
