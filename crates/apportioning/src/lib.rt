// Why base contributions and shares are right: theorems, no code.
#![tactic(auto)]
