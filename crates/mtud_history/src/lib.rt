// What holds of the MTU search after any sequence of calls: theorems over the promises of `mtud`, and no code. 01, MTU search.

#![tactic(auto)]
