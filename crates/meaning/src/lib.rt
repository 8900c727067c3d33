// What a requirement means on the endless run, the translation table, and the findings. No code.
#![tactic(auto)]
