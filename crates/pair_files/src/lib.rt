// That the first 4,096 bytes of a file are enough to read it as a plan or a script. No code.
#![tactic(auto)]
