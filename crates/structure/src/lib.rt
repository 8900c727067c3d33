// Which tables and inputs records are allowed, said of them as they are made up, that the readers accept just the numbers of these, and how many numbers there are. No code.
#![tactic(auto)]
