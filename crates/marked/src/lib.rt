// The cases that document 01 marks for proof, the slips that it excludes, and cases of a second trace, each list shown of the definitions by one statement. No code.
#![tactic(auto)]
