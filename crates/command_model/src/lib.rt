//! What a command means: the definitions that the contract of the top call cites. They speak of
//! words and of files as lists of bytes; nothing here computes.
#![tactic(auto)]
