// What holds of every state that a run reaches: it is one of its table, turns pass in order, inputs are set once read;
// and what stops a run. No code.
#![tactic(auto)]
