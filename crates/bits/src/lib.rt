// Bits of bytes and of rows of bytes: definitions and laws. No code.
#![tactic(auto)]
