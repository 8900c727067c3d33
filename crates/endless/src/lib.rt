// What a closed run is: a well-formed lasso, whose endless run is that of the rules. No code.
#![tactic(auto)]
