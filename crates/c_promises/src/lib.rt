// What the C calls leave, in the words of the rules; demand 3 of the library's calls and of these. No code.
#![tactic(auto)]
